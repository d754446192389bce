//! The next line in a function's blocks.

ghost use Rattle.std.specs.Prelude.{◌≡◌, ◌+◌, ◌∷◌, List, [], true, false, map, Some, None, IfOk, OnOk};
ghost use Rattle.gp_tree.specs.Expression.{expression};
ghost use Rattle.gp_tree.specs.Form as forms;
ghost use Rattle.gp_tree.specs.Statement.{statement};
ghost use Rattle.gp_parse.specs.FirstFault.{within};
ghost use Rattle.gp_parse.specs.code.NestingCode as code;
ghost use Rattle.gp_parse.specs.code.NestingMachine as spec;
ghost use Rattle.gp_parse.specs.FormLine.{line_of};
ghost use Rattle.gp_parse.specs.code.NestingViews.{Leaves, Turns, Follows, header_of, opening_of, frame_of, maybe_opening};

use crate::block_end::{add, close, put, settle};
use crate::form_line::FormLine;
use crate::open_blocks::{Frame, Header, Opening};
use crate::parse_fault::ParseFault;
use crate::simple_line::{simple_statement, statement_behind};
use gp_base::{LineNo, Stack};
use gp_tree::{LineForm, Stmt};
use std::alloc::{AllocError, Global};

/// The greatest level of a block.
const LEVELS: u64 = 50;

/// The block of the frames that has this indentation, which is taken off them, with the deeper blocks closed. `None`
/// where none has it.
pub fn place(
    alloc: Global,
    frames: &mut Stack<Frame>,
    indent: u32,
) -> Result<Option<Frame>, AllocError>
    ensures { IfOk result (λ found. code.IsPlaced frame_of found frames.new (spec.placed indent (map frame_of frames.old))) }
{
    let Some(top) = frames.pop() else {
        return Ok(None);
    };
    let mut frame = top;
    'deeper: while frame.indent > indent {
        let Some(around) = frames.pop() else {
            return Ok(None);
        };
        frame = closed_into(alloc, frame, around)?;
    }
    if frame.indent == indent {
        Ok(Some(frame))
    } else {
        Ok(None)
    }
}

/// The block around a block that ends, with it.
pub fn closed_into(alloc: Global, frame: Frame, around: Frame) -> Result<Frame, AllocError>
    ensures { IfOk result (λ made. frame_of made ≡ spec.put (opening_of frame.opening) (spec.block_of (frame_of frame)) (frame_of around)) }
{
    let mut around = around;
    close(alloc, frame, &mut around)?;
    Ok(around)
}

/// Begins the block of a header, by the statement behind its colon.
fn begin(
    alloc: Global,
    frame: &mut Frame,
    opening: Opening,
    behind: Option<Stmt>,
) -> Result<Option<Opening>, AllocError>
    ensures { IfOk result (λ wants. (xs : List spec.Frame) → code.begun (opening_of opening) (code.maybe_statement statement behind) (frame_of frame.old) xs ≡ record { wants = maybe_opening wants; frames = frame_of frame.new ∷ xs }) }
{
    match behind {
        None => Ok(Some(opening)),
        Some(statement) => {
            let mut block = Vec::new(alloc);
            block.push(statement)?;
            put(alloc, opening, block, frame)?;
            Ok(None)
        }
    }
}

/// Begins the block of a header, which would have this level, by the statement behind its colon.
fn begin_at(
    alloc: Global,
    frame: &mut Frame,
    line: LineNo,
    header: Header,
    level: u64,
    in_loop: bool,
    behind: Option<Stmt>,
) -> Result<Option<Opening>, ParseFault>
    ensures { Turns result (frame_of frame.new) (λ xs. code.begun_or_fault (within 50) (spec.opening (frame_of frame.old) (header_of header) level in_loop) line (code.maybe_statement statement behind) (frame_of frame.old) xs) }
{
    if level > LEVELS {
        return Err(ParseFault::TooDeep(line));
    }
    let opening = Opening {
        header,
        indent: frame.indent,
        level: level as u32,
        in_loop,
    };
    Ok(begin(alloc, frame, opening, behind)?)
}

/// Begins the block of a header, which would have this level, with the form behind its colon.
fn open_block(
    alloc: Global,
    frame: &mut Frame,
    line: LineNo,
    header: Header,
    level: u64,
    in_loop: bool,
    behind: Option<Box<LineForm>>,
) -> Result<Option<Opening>, ParseFault>
    ensures { Turns result (frame_of frame.new) (λ xs. spec.opens (within 50) (spec.opening (frame_of frame.old) (header_of header) level in_loop) line (forms.form_behind behind) (frame_of frame.old) xs) }
{
    let behind = statement_behind(alloc, in_loop, line, behind)?;
    begin_at(alloc, frame, line, header, level, in_loop, behind)
}

/// Begins the block of a loop or of an `if`, which ends the `if` before it.
fn open_new(
    alloc: Global,
    frame: &mut Frame,
    line: LineNo,
    header: Header,
    in_loop: bool,
    behind: Option<Box<LineForm>>,
) -> Result<Option<Opening>, ParseFault>
    ensures { Turns result (frame_of frame.new) (λ xs. spec.opens (within 50) (spec.opening (frame_of frame.old) (header_of header) (frame.old.opening.level + 1) in_loop) line (forms.form_behind behind) (spec.settle (frame_of frame.old)) xs) }
{
    settle(alloc, frame, Vec::new(alloc))?;
    let level = frame.opening.level as u64 + 1;
    open_block(alloc, frame, line, header, level, in_loop, behind)
}

/// Begins the block of an `elif` or `else`, which would have this level, where the last `if` may go on.
fn open_other(
    alloc: Global,
    frame: &mut Frame,
    line: LineNo,
    header: Header,
    level: u64,
    behind: Option<Box<LineForm>>,
) -> Result<Option<Opening>, ParseFault>
    ensures { Turns result (frame_of frame.new) (λ xs. spec.opens_other (within 50) (spec.opening (frame_of frame.old) (header_of header) level frame.old.opening.in_loop) line (forms.form_behind behind) (frame_of frame.old) xs (frame_of frame.old).chain) }
{
    if frame.chain.is_empty() {
        return Err(ParseFault::Nesting(line));
    }
    open_block(
        alloc,
        frame,
        line,
        header,
        level,
        frame.opening.in_loop,
        behind,
    )
}

/// Adds a line alone to a block.
fn add_line(
    alloc: Global,
    frame: &mut Frame,
    line: LineNo,
    form: LineForm,
) -> Result<Option<Opening>, ParseFault>
    ensures { Turns result (frame_of frame.new) (λ xs. spec.adds (spec.simple_of frame.old.opening.in_loop line (forms.form form)) line (frame_of frame.old) xs) }
{
    let statement = simple_statement(alloc, frame.opening.in_loop, line, form)?;
    settle(alloc, frame, Vec::new(alloc))?;
    add(frame, statement)?;
    Ok(None)
}

/// Takes the next line of a block.
fn go_on(
    alloc: Global,
    frame: &mut Frame,
    line: LineNo,
    form: LineForm,
) -> Result<Option<Opening>, ParseFault>
    ensures { Turns result (frame_of frame.new) (λ xs. spec.goes_on (within 50) line (forms.form form) (frame_of frame.old) xs) }
{
    match form {
        LineForm::While(test, behind) => {
            open_new(alloc, frame, line, Header::While(line, test), true, behind)
        }
        LineForm::For(name, count, behind) => {
            let header = Header::For(line, name, count);
            open_new(alloc, frame, line, header, true, behind)
        }
        LineForm::If(test, behind) => {
            let header = Header::Branch(line, test);
            let in_loop = frame.opening.in_loop;
            open_new(alloc, frame, line, header, in_loop, behind)
        }
        LineForm::Elif(test, behind) => {
            let header = Header::Branch(line, test);
            let level = frame.reached as u64 + 1;
            open_other(alloc, frame, line, header, level, behind)
        }
        LineForm::Else(behind) => {
            let level = frame.reached as u64;
            open_other(alloc, frame, line, Header::Other, level, behind)
        }
        form => add_line(alloc, frame, line, form),
    }
}

/// Takes the next line of a block, and puts the block on the frames around it.
fn in_frame(
    alloc: Global,
    frames: &mut Stack<Frame>,
    frame: Frame,
    line: LineNo,
    form: Box<LineForm>,
) -> Result<Option<Opening>, ParseFault>
    ensures { Leaves result (map frame_of frames.new) (spec.goes_on (within 50) line (forms.form form.value) (frame_of frame) (map frame_of frames.old)) }
{
    let mut frame = frame;
    let wants = go_on(alloc, &mut frame, line, Box::into_inner(form))?;
    frames.push(frame)?;
    Ok(wants)
}

/// A block that was begun, with lines of this indentation to come.
fn begun_frame(alloc: Global, opening: Opening, indent: u32) -> Frame
    ensures { frame_of result ≡ spec.opened (opening_of opening) indent }
{
    Frame {
        opening,
        indent,
        done: Vec::new(alloc),
        chain: Stack::new(alloc),
        reached: 0,
    }
}

/// Takes the first line of a block that was begun.
fn first_line(
    alloc: Global,
    frames: &mut Stack<Frame>,
    opening: Opening,
    line: FormLine,
) -> Result<Option<Opening>, ParseFault>
    ensures { Leaves result (map frame_of frames.new) (spec.step_by (within 50) (line_of line) (Some (opening_of opening)) (map frame_of frames.old)) }
{
    if line.indent <= opening.indent {
        return Err(ParseFault::Nesting(line.number));
    }
    let frame = begun_frame(alloc, opening, line.indent);
    in_frame(alloc, frames, frame, line.number, line.form)
}

/// Takes a line behind other lines.
fn later_line(
    alloc: Global,
    frames: &mut Stack<Frame>,
    line: FormLine,
) -> Result<Option<Opening>, ParseFault>
    ensures { Leaves result (map frame_of frames.new) (spec.step_by (within 50) (line_of line) None (map frame_of frames.old)) }
{
    match place(alloc, frames, line.indent)? {
        Some(frame) => in_frame(alloc, frames, frame, line.number, line.form),
        None => Err(ParseFault::Nesting(line.number)),
    }
}

/// Takes the next line of a function: the frames change, and the answer is the block that was begun, if there is one.
pub fn next_line(
    alloc: Global,
    frames: &mut Stack<Frame>,
    wants: Option<Opening>,
    line: FormLine,
) -> Result<Option<Opening>, ParseFault>
    ensures { Leaves result (map frame_of frames.new) (spec.step_by (within 50) (line_of line) (maybe_opening wants) (map frame_of frames.old)) }
{
    match wants {
        Some(opening) => first_line(alloc, frames, opening, line),
        None => later_line(alloc, frames, line),
    }
}
