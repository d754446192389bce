//! Laws of lines, each carried by the contract of a function that does nothing.

ghost use Rattle.gp_form.specs.FormLaws.{HasFormOrNone};
ghost use Rattle.gp_form.specs.Forms.{HasOneForm};

/// A line's tokens spell at most one form.
#[tactic(auto, using(crate::proofs::FormComplete::one_form))]
pub fn one_form()
    ensures { HasOneForm }
{}

/// A line's tokens spell a form or none, and the line is too big or not.
pub fn form_or_none()
    ensures { HasFormOrNone }
{}
