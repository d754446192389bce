//! Faults, as answers write them.

use gp_base::LineNo;
use gp_form::FormFault;
use gp_front::TextFault;
use gp_lex::LexFault;
use gp_parse::ParseFault;
use gp_scope::ScopeFault;
use gp_typing::TypeFault;
use std::alloc::{AllocError, Global};

/// A fault's line and its code. Want of memory has none.
pub type Code = Result<(LineNo, &'static str), AllocError>;

/// The line and the code of a fault of lines and tokens.
pub fn lex_code(fault: LexFault) -> Code {
    Ok(match fault {
        LexFault::NotUtf8(line) => (line, "NotUtf8"),
        LexFault::TabIndent(line) => (line, "TabIndent"),
        LexFault::BadChar(line) => (line, "BadChar"),
        LexFault::Unclosed(line) => (line, "Unclosed"),
        LexFault::BadNumber(line) => (line, "BadNumber"),
        LexFault::NotNfkc(line) => (line, "NotNfkc"),
        LexFault::Memory => return Err(AllocError),
    })
}

/// Those of a line without a form.
pub fn form_code(fault: FormFault) -> Code {
    Ok(match fault {
        FormFault::TooBig(line) => (line, "TooBig"),
        FormFault::NotALine(line) => (line, "NotALine"),
        FormFault::Memory => return Err(AllocError),
    })
}

/// Those of a fault of forms and nesting.
pub fn parse_code(fault: ParseFault) -> Code {
    Ok(match fault {
        ParseFault::TooBig(line) => (line, "TooBig"),
        ParseFault::NotALine(line) => (line, "NotALine"),
        ParseFault::Nesting(line) => (line, "Nesting"),
        ParseFault::TooDeep(line) => (line, "TooDeep"),
        ParseFault::Memory => return Err(AllocError),
    })
}

/// Those of a fault of names.
pub fn scope_code(fault: ScopeFault) -> Code {
    Ok(match fault {
        ScopeFault::ImportUnknown(line) => (line, "ImportUnknown"),
        ScopeFault::NameTwice(line) => (line, "NameTwice"),
        ScopeFault::NotImported(line) => (line, "NotImported"),
        ScopeFault::UnknownType(line) => (line, "UnknownType"),
        ScopeFault::StructCycle(line) => (line, "StructCycle"),
        ScopeFault::TooBigType(line) => (line, "TooBigType"),
        ScopeFault::Memory => return Err(AllocError),
    })
}

/// Those of a fault of types.
pub fn type_code(fault: TypeFault) -> Code {
    Ok(match fault {
        TypeFault::UnknownName(line) => (line, "UnknownName"),
        TypeFault::NotOnEveryPath(line) => (line, "NotOnEveryPath"),
        TypeFault::Mismatch(line) => (line, "Mismatch"),
        TypeFault::WrongCount(line) => (line, "WrongCount"),
        TypeFault::TooBigType(line) => (line, "TooBigType"),
        TypeFault::TooManyPlaces(line) => (line, "TooManyPlaces"),
        TypeFault::MissingReturn(line) => (line, "MissingReturn"),
        TypeFault::Unreachable(line) => (line, "Unreachable"),
        TypeFault::LoopChangesType(line) => (line, "LoopChangesType"),
        TypeFault::BorrowedAssigned(line) => (line, "BorrowedAssigned"),
        TypeFault::Memory => return Err(AllocError),
    })
}

/// A fault as an answer.
pub fn told_code(alloc: Global, code: Code) -> Result<String, AllocError> {
    let (line, word) = code?;
    format!(in alloc; "line {}: {word}", line.0)
}

/// A fault of a whole text as an answer, with its phase.
pub fn told_fault(alloc: Global, fault: TextFault) -> Result<String, AllocError> {
    let (phase, code) = match fault {
        TextFault::Lex(fault) => ("Lex", lex_code(fault)),
        TextFault::Parse(fault) => ("Parse", parse_code(fault)),
        TextFault::Scope(fault) => ("Scope", scope_code(fault)),
        TextFault::Type(fault) => ("Type", type_code(fault)),
    };
    let (line, word) = code?;
    format!(in alloc; "line {}: {phase} {word}", line.0)
}
