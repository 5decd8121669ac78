ghost use Rattle.std.specs.Prelude.{◌≡◌, [], map, nat_eq};
ghost use Rattle.std.specs.List.{list_any};
ghost use Rattle.std.specs.Cmp.Lexicographic.{pointwise};
ghost use Rattle.al_plan.specs.Accept as spec;

use al_csv::Decl;
use al_plan::{Refused, RefusedKind};
use al_value::Name;

/// The most columns of a dataset, and the most variables that are live at an operator.
pub const MAX_WIDTH: usize = 64;

/// The place of this number, and 0 where there is none.
pub fn place_at(places: &[u32], number: usize) -> u32
    ensures { result ≡ spec.place_at places.now number }
{
    match places.get(number) {
        Some(place) => *place,
        None => 0,
    }
}

fn is_declared(decls: &[Decl], name: &Name) -> bool
    ensures { result ≡ list_any (λ d. pointwise nat_eq d.name name.now) decls.now }
{
    for d in decls {
        if d.name == *name {
            return true;
        }
    }
    false
}

#[tactic(auto, using(crate::proofs::ListLaws::list_any_map))]
/// The first rule that a dataset breaks behind those that are declared before it.
fn broken_dataset(before: &[Decl], decl: &Decl) -> Option<RefusedKind>
    ensures { result ≡ spec.broken_dataset (map (λ d. d.name) before.now) decl.now }
{
    if is_declared(before, &decl.name) {
        Some(RefusedKind::TwiceMade)
    } else if decl.columns.len() > MAX_WIDTH {
        Some(RefusedKind::TooWide)
    } else {
        None
    }
}

/// The first dataset that breaks a rule.
pub fn dataset_refusal(decls: &[Decl], places: &[u32]) -> Option<Refused>
    ensures { result ≡ spec.dataset_refusal [] decls.now places.now 0 }
{
    for (i, decl) in decls.iter().enumerate() {
        if let Some(kind) = broken_dataset(&decls[..i], decl) {
            let place = place_at(places, i);
            return Some(Refused { kind, place });
        }
    }
    None
}
