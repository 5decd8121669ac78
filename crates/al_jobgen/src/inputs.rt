//! The inputs of operators.

ghost use Rattle.std.specs.Prelude.{◌≡◌};
ghost use Rattle.al_phys.specs.declared.phys.Phys.{out-Phys};
ghost use Rattle.al_jobgen.specs.Shapes.{form, form_in};

use al_phys::Phys;

/// The inputs of an operator.
pub enum Inputs<'a> {
    None,
    One(&'a Phys),
    /// A left and a right input.
    Two(&'a Phys, &'a Phys),
}

#[tactic(auto, using(crate::proofs::PieceShapes::out_laws))]
pub fn inputs_of(p: &Phys) -> Inputs<'_>
    ensures { form_in result ≡ form (out-Phys p.now) }
{
    match p {
        Phys::Scan { .. } => Inputs::None,
        Phys::One => Inputs::None,
        Phys::Assign { input, .. } => Inputs::One(input.get()),
        Phys::Select { input, .. } => Inputs::One(input.get()),
        Phys::Project { input, .. } => Inputs::One(input.get()),
        Phys::Unnest { input, .. } => Inputs::One(input.get()),
        Phys::Subplan { input, .. } => Inputs::One(input.get()),
        Phys::Check { input, .. } => Inputs::One(input.get()),
        Phys::Join { left, right, .. } => Inputs::Two(left.get(), right.get()),
        Phys::HashGroup { input, .. } => Inputs::One(input.get()),
        Phys::PreGroup { input, .. } => Inputs::One(input.get()),
        Phys::HashDistinct { input } => Inputs::One(input.get()),
        Phys::AggPart { input, .. } => Inputs::One(input.get()),
        Phys::AggFinal { input, .. } => Inputs::One(input.get()),
        Phys::Union { left, right, .. } => Inputs::Two(left.get(), right.get()),
        Phys::Sort { input, .. } => Inputs::One(input.get()),
        Phys::Limit { input, .. } => Inputs::One(input.get()),
        Phys::LocalLimit { input, .. } => Inputs::One(input.get()),
        Phys::Result { input, .. } => Inputs::One(input.get()),
        Phys::HashExchange { input, .. } => Inputs::One(input.get()),
        Phys::Broadcast { input } => Inputs::One(input.get()),
        Phys::Gather { input } => Inputs::One(input.get()),
        Phys::Merge { input, .. } => Inputs::One(input.get()),
    }
}
