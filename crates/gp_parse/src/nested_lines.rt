//! Programs from lines with their forms.

ghost use Rattle.std.specs.Prelude.{◌≡◌, ◌+◌, ◌++◌, ◌∷◌, List, [], map, Some, None, true, false, IfOk, OnOk};
ghost use Rattle.gp_tree.specs.declared.program.Item.{Item};
ghost use Rattle.gp_tree.specs.Form as forms;
ghost use Rattle.gp_tree.specs.Program.{field_definition, program_items};
ghost use Rattle.gp_tree.specs.Statement.{statement};
ghost use Rattle.gp_parse.specs.FirstFault.{within};
ghost use Rattle.gp_parse.specs.Nesting.{function_of};
ghost use Rattle.gp_parse.specs.code.NestingCode as code;
ghost use Rattle.gp_parse.specs.code.NestingMachine as spec;
ghost use Rattle.gp_parse.specs.FormLine.{line_of};
ghost use Rattle.gp_parse.specs.code.NestingViews.{Follows, LeavesState, LeavesItems, frame_of, maybe_opening, open_blocks, function_head, position_of};
ghost use Rattle.gp_parse.specs.Nested.{IsNested};

use crate::block_end::ended;
use crate::block_line::{closed_into, next_line};
use crate::form_line::FormLine;
use crate::open_blocks::{Frame, Header, Opening};
use crate::parse_fault::ParseFault;
use crate::position::{OpenFunction, Position};
use crate::simple_line::{misplaced, simple_statement};
use gp_base::{LineNo, Name, Stack};
use gp_tree::{
    Block, FieldDecl, FieldDecls, Function, Import, Item, LineForm, Program, StructDecl,
};
use std::alloc::{AllocError, Global};

/// Takes a line that begins an item.
fn top_line(
    items: &mut Program,
    line: LineNo,
    indent: u32,
    form: LineForm,
) -> Result<Position, ParseFault>
    ensures { LeavesState result items.new (spec.at_top (program_items items.old) (code.line line indent (forms.form form))) }
{
    if indent == 0 {
        top_form(items, line, form)
    } else {
        Err(misplaced(line, form))
    }
}

/// Takes a line that begins an item, by its form.
fn top_form(items: &mut Program, line: LineNo, form: LineForm) -> Result<Position, ParseFault>
    ensures { LeavesState result items.new (spec.top_form line (forms.form form) (program_items items.old)) }
{
    match form {
        LineForm::FunctionDecorator => Ok(Position::FunctionMarked(line)),
        LineForm::StructDecorator => Ok(Position::ClassMarked(line)),
        form => whole_item(items, line, form),
    }
}

/// Takes a line that stands at the top without others.
fn whole_item(items: &mut Program, line: LineNo, form: LineForm) -> Result<Position, ParseFault>
    ensures { LeavesState result items.new (spec.adds_items (spec.top_line_of line (forms.form form)) line (program_items items.old)) }
{
    match form {
        LineForm::Import(module, names) => {
            items.push(Item::Import(Import {
                line,
                module,
                names,
            }))?;
            Ok(Position::Between)
        }
        LineForm::Docstring => Ok(Position::Between),
        LineForm::Pass => Ok(Position::Between),
        LineForm::ModuleCall(_) => Ok(Position::Between),
        other => Err(misplaced(line, other)),
    }
}

/// Takes the line behind a function's decorator.
fn def_line(
    alloc: Global,
    items: &mut Program,
    mark: LineNo,
    line: LineNo,
    form: LineForm,
) -> Result<Position, ParseFault>
    ensures { LeavesState result items.new (spec.def_line mark line (forms.form form) (program_items items.old)) }
{
    match form {
        LineForm::Def(name, params, result_type, behind) => {
            let function = Function {
                line,
                mark,
                name,
                params,
                result: result_type,
                body: Vec::new(alloc),
            };
            begin_function(alloc, items, function, behind)
        }
        other => Err(misplaced(line, other)),
    }
}

/// Begins a function, with the form behind its colon.
fn begin_function(
    alloc: Global,
    items: &mut Program,
    function: Function,
    behind: Option<Box<LineForm>>,
) -> Result<Position, ParseFault>
    ensures { LeavesState result items.new (spec.def_behind (function_head function) (forms.form_behind behind) (program_items items.old)) }
{
    match behind {
        None => Ok(body_wanted(alloc, function)?),
        Some(form) => whole_function(alloc, items, function, Box::into_inner(form)),
    }
}

/// Behind a `def` line, whose body is to come.
fn body_wanted(alloc: Global, function: Function) -> Result<Position, AllocError>
    ensures { IfOk result (λ made. position_of made ≡ spec.in_function (function_head function) (record { wants = Some spec.body_opening; frames = [] })) }
{
    let begun = OpenFunction {
        function,
        wants: Some(Opening {
            header: Header::Function,
            indent: 0,
            level: 1,
            in_loop: false,
        }),
        frames: Stack::new(alloc),
    };
    Ok(Position::InFunction(Box::new(alloc, begun)?))
}

/// Adds a function with the one statement behind its colon.
fn whole_function(
    alloc: Global,
    items: &mut Program,
    function: Function,
    form: LineForm,
) -> Result<Position, ParseFault>
    ensures { LeavesState result items.new (spec.def_behind (function_head function) (forms.some_form (forms.form form)) (program_items items.old)) }
{
    let statement = simple_statement(alloc, false, function.line, form)?;
    let mut body = Vec::new(alloc);
    body.push(statement)?;
    add_function(items, function, body)?;
    Ok(Position::Between)
}

/// Adds a function with this body.
fn add_function(items: &mut Program, function: Function, body: Block) -> Result<(), AllocError>
    ensures { OnOk result (program_items items.new ≡ program_items items.old ++ function_of (function_head function) (map statement body.items) ∷ []) }
{
    let mut function = function;
    function.body = body;
    items.push(Item::Function(function))
}

/// Takes the line behind a class's decorator.
fn class_line(
    items: &mut Program,
    mark: LineNo,
    line: LineNo,
    form: LineForm,
) -> Result<Position, ParseFault>
    ensures { LeavesState result items.new (spec.class_line mark line (forms.form form) (program_items items.old)) }
{
    match form {
        LineForm::Class(name) => Ok(Position::ClassBegun(mark, line, name)),
        other => Err(misplaced(line, other)),
    }
}

/// Takes a line of a class's block.
fn class_member(
    items: &mut Program,
    class: StructDecl,
    line: LineNo,
    indent: u32,
    form: LineForm,
) -> Result<Position, ParseFault>
    ensures { LeavesState result items.new (spec.adds_fields (spec.class_line_of line (forms.form form)) line class.mark class.line class.name indent (map field_definition class.fields) (program_items items.old)) }
{
    match form {
        LineForm::Field(name, ty) => {
            let mut class = class;
            class.fields.push(FieldDecl { line, name, ty })?;
            Ok(Position::InClass(indent, class))
        }
        LineForm::Docstring => Ok(Position::InClass(indent, class)),
        LineForm::Pass => Ok(Position::InClass(indent, class)),
        other => Err(misplaced(line, other)),
    }
}

/// Takes the first line of a class's block.
fn first_member(
    alloc: Global,
    items: &mut Program,
    mark: LineNo,
    class: LineNo,
    name: Name,
    line: FormLine,
) -> Result<Position, ParseFault>
    ensures { LeavesState result items.new (spec.step_at (within 50) (line_of line) (program_items items.old) (spec.class_begun mark class name)) }
{
    if line.indent > 0 {
        let class = StructDecl {
            line: class,
            mark,
            name,
            fields: FieldDecls::new(alloc),
        };
        class_member(
            items,
            class,
            line.number,
            line.indent,
            Box::into_inner(line.form),
        )
    } else {
        Err(ParseFault::Nesting(line.number))
    }
}

/// Takes a line behind other lines of a class's block, which may end there.
fn later_member(
    items: &mut Program,
    indent: u32,
    class: StructDecl,
    line: FormLine,
) -> Result<Position, ParseFault>
    ensures { LeavesState result items.new (spec.step_at (within 50) (line_of line) (program_items items.old) (position_of (code.at_class indent class))) }
{
    if line.indent == indent {
        class_member(
            items,
            class,
            line.number,
            indent,
            Box::into_inner(line.form),
        )
    } else {
        items.push(Item::Struct(class))?;
        top_line(items, line.number, line.indent, Box::into_inner(line.form))
    }
}

/// All statements of the outermost block; `None` where no block is open.
fn closed(alloc: Global, frames: Stack<Frame>) -> Result<Option<Block>, AllocError>
    ensures { IfOk result (λ found. code.maybe_list (λ b. map statement b.items) found ≡ code.all_closed (map frame_of frames)) }
{
    let mut frames = frames;
    let Some(top) = frames.pop() else {
        return Ok(None);
    };
    let mut frame = top;
    'around: while let Some(around) = frames.pop() {
        frame = closed_into(alloc, frame, around)?;
    }
    let (_, block) = ended(alloc, frame)?;
    Ok(Some(block))
}

/// Adds a function whose lines have ended. The line is that which is blamed where they may not end.
fn end_function(
    alloc: Global,
    items: &mut Program,
    begun: Box<OpenFunction>,
    line: LineNo,
) -> Result<(), ParseFault>
    ensures { LeavesItems result items.new (spec.ends_function (function_head begun.value.function) (program_items items.old) line (open_blocks begun.value).wants (open_blocks begun.value).frames) }
{
    let OpenFunction {
        function,
        wants,
        frames,
    } = Box::into_inner(begun);
    match wants {
        Some(_) => Err(ParseFault::Nesting(line)),
        None => end_body(alloc, items, function, frames, line),
    }
}

/// Adds a function whose blocks end.
#[tactic(auto, using(crate::proofs::Readings::ends_some, crate::proofs::Readings::ends_none))]
fn end_body(
    alloc: Global,
    items: &mut Program,
    function: Function,
    frames: Stack<Frame>,
    line: LineNo,
) -> Result<(), ParseFault>
    ensures { LeavesItems result items.new (spec.ends_function (function_head function) (program_items items.old) line None (map frame_of frames)) }
{
    match closed(alloc, frames)? {
        Some(body) => Ok(add_function(items, function, body)?),
        None => Err(ParseFault::Nesting(line)),
    }
}

/// Takes a line at the top behind a function.
fn behind_function(
    alloc: Global,
    items: &mut Program,
    begun: Box<OpenFunction>,
    line: FormLine,
) -> Result<Position, ParseFault>
    ensures { LeavesState result items.new (spec.goes_to (spec.ends_function (function_head begun.value.function) (program_items items.old) line.number (open_blocks begun.value).wants (open_blocks begun.value).frames) (λ more. spec.at_top more (line_of line))) }
{
    end_function(alloc, items, begun, line.number)?;
    top_line(items, line.number, line.indent, Box::into_inner(line.form))
}

/// Takes a line of a function's body.
fn body_line(
    alloc: Global,
    begun: Box<OpenFunction>,
    line: FormLine,
) -> Result<Position, ParseFault>
    ensures { (items : List Item) → LeavesState result items (spec.in_blocks (function_head begun.value.function) (program_items items) (spec.step_by (within 50) (line_of line) (open_blocks begun.value).wants (open_blocks begun.value).frames)) }
{
    let OpenFunction {
        function,
        wants,
        mut frames,
    } = Box::into_inner(begun);
    let wants = next_line(alloc, &mut frames, wants, line)?;
    let begun = OpenFunction {
        function,
        wants,
        frames,
    };
    Ok(Position::InFunction(Box::new(alloc, begun)?))
}

/// Takes a line behind lines of a function.
#[tactic(auto, using(crate::proofs::Readings::behind_is))]
fn function_line(
    alloc: Global,
    items: &mut Program,
    begun: Box<OpenFunction>,
    line: FormLine,
) -> Result<Position, ParseFault>
    ensures { LeavesState result items.new (spec.step_at (within 50) (line_of line) (program_items items.old) (spec.in_function (function_head begun.value.function) (open_blocks begun.value))) }
{
    if line.indent == 0 {
        behind_function(alloc, items, begun, line)
    } else {
        body_line(alloc, begun, line)
    }
}

/// Takes the line behind a decorator of a function.
fn marked_line(
    alloc: Global,
    items: &mut Program,
    mark: LineNo,
    line: FormLine,
) -> Result<Position, ParseFault>
    ensures { LeavesState result items.new (spec.step_at (within 50) (line_of line) (program_items items.old) (spec.function_marked mark)) }
{
    if line.indent == 0 {
        def_line(alloc, items, mark, line.number, Box::into_inner(line.form))
    } else {
        Err(ParseFault::Nesting(line.number))
    }
}

/// Takes the line behind a decorator of a class.
fn marked_class_line(
    items: &mut Program,
    mark: LineNo,
    line: FormLine,
) -> Result<Position, ParseFault>
    ensures { LeavesState result items.new (spec.step_at (within 50) (line_of line) (program_items items.old) (spec.class_marked mark)) }
{
    if line.indent == 0 {
        class_line(items, mark, line.number, Box::into_inner(line.form))
    } else {
        Err(ParseFault::Nesting(line.number))
    }
}

/// Takes the next line.
fn step(
    alloc: Global,
    items: &mut Program,
    position: Position,
    line: FormLine,
) -> Result<Position, ParseFault>
    ensures { LeavesState result items.new (spec.step_at (within 50) (line_of line) (program_items items.old) (position_of position)) }
{
    match position {
        Position::Between => top_line(items, line.number, line.indent, Box::into_inner(line.form)),
        Position::FunctionMarked(mark) => marked_line(alloc, items, mark, line),
        Position::ClassMarked(mark) => marked_class_line(items, mark, line),
        Position::ClassBegun(mark, class, name) => {
            first_member(alloc, items, mark, class, name, line)
        }
        Position::InClass(indent, class) => later_member(items, indent, class, line),
        Position::InFunction(begun) => function_line(alloc, items, begun, line),
    }
}

/// Ends the lines, of which the last one has this number.
fn finish(
    alloc: Global,
    mut items: Program,
    position: Position,
    last: LineNo,
) -> Result<Program, ParseFault>
    ensures { Follows program_items result (spec.ends_at (program_items items) last (position_of position)) }
{
    match position {
        Position::Between => Ok(items),
        Position::FunctionMarked(_) => Err(ParseFault::Nesting(last)),
        Position::ClassMarked(_) => Err(ParseFault::Nesting(last)),
        Position::ClassBegun(_, _, _) => Err(ParseFault::Nesting(last)),
        Position::InClass(_, class) => {
            items.push(Item::Struct(class))?;
            Ok(items)
        }
        Position::InFunction(begun) => {
            end_function(alloc, &mut items, begun, last)?;
            Ok(items)
        }
    }
}

/// The program that these lines are the lines of, or their first fault.
fn read(alloc: Global, lines: Vec<FormLine>) -> Result<Program, ParseFault>
    ensures { Follows program_items result (spec.read (within 50) spec.start (code.line_number 0) (map line_of lines.items)) }
{
    let mut items = Program::new(alloc);
    let mut position = Position::Between;
    let mut last = LineNo(0);
    for line in lines {
        last = line.number;
        let next = step(alloc, &mut items, position, line)?;
        position = next;
    }
    finish(alloc, items, position, last)
}

/// The one program whose lines these are, each statement, field and definition with the number of its line.
///
/// `Nesting` and `TooDeep` name the first line that no program's lines go on with after the lines before it: it is
/// `TooDeep` where some program with deeper blocks would go on with it, else `Nesting`. Where there is no such line
/// and the lines are no program's, it is `Nesting` at the last line. `TooBig` and `NotALine` never come.
pub fn nest(alloc: Global, lines: Vec<FormLine>) -> Result<Program, ParseFault>
    ensures { IsNested (map line_of lines.items) result }
{
    read(alloc, lines)
}
