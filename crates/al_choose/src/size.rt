//! How many operators a physical plan has.

ghost use Rattle.std.specs.Prelude.{◌≡◌, ◌-◌, length};
ghost use Rattle.al_phys.specs.Operators.{operators};

use al_phys::Phys;

/// How much of the room for operators is left beside those of a plan.
#[tactic(auto, using(crate::proofs::ChosenRules::size_laws))]
pub fn room_left(p: &Phys, room: u64) -> u64
    ensures { result ≡ room - length (operators p.now) }
{
    let rest = room.saturating_sub(1);
    match p {
        Phys::Scan { .. } => rest,
        Phys::One => rest,
        Phys::Assign { input, .. } => room_left(input.get(), rest),
        Phys::Select { input, .. } => room_left(input.get(), rest),
        Phys::Project { input, .. } => room_left(input.get(), rest),
        Phys::Unnest { input, .. } => room_left(input.get(), rest),
        Phys::Subplan { input, .. } => room_left(input.get(), rest),
        Phys::Check { input, .. } => room_left(input.get(), rest),
        Phys::Join { left, right, .. } => room_left(right.get(), room_left(left.get(), rest)),
        Phys::HashGroup { input, .. } => room_left(input.get(), rest),
        Phys::PreGroup { input, .. } => room_left(input.get(), rest),
        Phys::HashDistinct { input } => room_left(input.get(), rest),
        Phys::AggPart { input, .. } => room_left(input.get(), rest),
        Phys::AggFinal { input, .. } => room_left(input.get(), rest),
        Phys::Union { left, right, .. } => room_left(right.get(), room_left(left.get(), rest)),
        Phys::Sort { input, .. } => room_left(input.get(), rest),
        Phys::Limit { input, .. } => room_left(input.get(), rest),
        Phys::LocalLimit { input, .. } => room_left(input.get(), rest),
        Phys::Result { input, .. } => room_left(input.get(), rest),
        Phys::HashExchange { input, .. } => room_left(input.get(), rest),
        Phys::Broadcast { input } => room_left(input.get(), rest),
        Phys::Gather { input } => room_left(input.get(), rest),
        Phys::Merge { input, .. } => room_left(input.get(), rest),
    }
}
