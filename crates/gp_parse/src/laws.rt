//! Laws of lines, each carried by the contract of a function that does nothing.

ghost use Rattle.gp_parse.specs.NestingLaws.{NeverBoth, HasOneFault, HasOneProgram, HasProgramOrFault};

/// A list of lines is the lines of at most one program.
pub fn one_program()
    ensures { HasOneProgram }
{}

/// A list of lines has at most one first fault.
pub fn one_fault()
    ensures { HasOneFault }
{}

/// A list of lines is the lines of a program, or it has a first fault.
pub fn program_or_fault()
    ensures { HasProgramOrFault }
{}

/// No list of lines is the lines of a program and has a first fault too.
pub fn never_both()
    ensures { NeverBoth }
{}
