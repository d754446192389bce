//! Each kind of tree made once from its parts, and the parts read again.

use gp_base::{Name, Names, TextBytes};
use gp_tree::copies::copy_text;
use gp_tree::expr::{BinOp, Expr, Exprs};
use gp_tree::function::Params;
use gp_tree::line_form::LineForm;
use gp_tree::place::{Place, Places, Targets};
use gp_tree::type_expr::{FunParamExpr, FunParamExprs, TypeExpr, TypeExprs};
use std::alloc::{AllocError, Global};
use std::test::Fail;

fn name(alloc: Global, text: &str) -> Result<Name, AllocError> {
    Name::new(alloc, text)
}

fn names(alloc: Global, texts: &[&str]) -> Result<Names, AllocError> {
    let mut names = Names::new(alloc);
    for text in texts {
        names.push(Name::new(alloc, text)?)?;
    }
    Ok(names)
}

// Whether these are the names, in this order.
fn are(names: &Names, texts: &[&str]) -> bool {
    let mut same = names.len() == texts.len() as u64;
    for (k, text) in texts.iter().enumerate() {
        same = same
            && names
                .get(k as u64)
                .is_some_and(|name| name.as_str() == *text);
    }
    same
}

fn is_int(expr: &Expr, number: i64) -> bool {
    matches!(expr, Expr::Int(n) if *n == number)
}

#[test]
fn places_have_their_fields(rt: HostRuntime) -> Result<(), Fail> {
    let place = Place {
        name: name(rt.alloc(), "p")?,
        fields: names(rt.alloc(), &["a", "b"])?,
    };
    let copy = place.copy(rt.alloc())?;
    assert_eq!(rt; copy.name.as_str(), "p");
    assert!(rt; are(&copy.fields, &["a", "b"]));
    let mut places = Places::new(rt.alloc());
    places.push(copy)?;
    let Targets::Pattern(copies) = Targets::Pattern(places).copy(rt.alloc())? else {
        return Err("no pattern".into());
    };
    assert_eq!(rt; copies.len(), 1);
    let Targets::One(copy) = Targets::One(place).copy(rt.alloc())? else {
        return Err("no place".into());
    };
    assert!(rt; are(&copy.fields, &["a", "b"]));
    Ok(())
}

#[test]
fn operators_have_their_operands(rt: HostRuntime) -> Result<(), Fail> {
    let alloc = rt.alloc();
    let sum = Expr::binary(alloc, BinOp::Add, Expr::Int(1), Expr::Int(2))?;
    let Expr::Binary(BinOp::Add, left, right) = sum else {
        return Err("no sum".into());
    };
    assert!(rt; is_int(&left, 1) && is_int(&right, 2));
    let Expr::And(left, right) = Expr::both(alloc, Expr::Int(3), Expr::Int(4))? else {
        return Err("no and".into());
    };
    assert!(rt; is_int(&left, 3) && is_int(&right, 4));
    let Expr::Or(left, right) = Expr::either(alloc, Expr::Int(5), Expr::Int(6))? else {
        return Err("no or".into());
    };
    assert!(rt; is_int(&left, 5) && is_int(&right, 6));
    Ok(())
}

#[test]
fn prefixes_and_choices_have_their_operands(rt: HostRuntime) -> Result<(), Fail> {
    let alloc = rt.alloc();
    let Expr::Neg(operand) = Expr::minus(alloc, Expr::Int(1))? else {
        return Err("no minus".into());
    };
    assert!(rt; is_int(&operand, 1));
    let Expr::Not(operand) = Expr::negation(alloc, Expr::Bool(true))? else {
        return Err("no not".into());
    };
    assert!(rt; matches!(*operand, Expr::Bool(true)));
    let choice = Expr::choice(alloc, Expr::Bool(false), Expr::Int(7), Expr::Int(8))?;
    let Expr::Choice(test, value, other) = choice else {
        return Err("no choice".into());
    };
    assert!(rt; matches!(*test, Expr::Bool(false)));
    assert!(rt; is_int(&value, 7) && is_int(&other, 8));
    Ok(())
}

#[test]
fn calls_and_tuples_have_their_parts(rt: HostRuntime) -> Result<(), Fail> {
    let mut text = TextBytes::new(rt.alloc());
    text.push(b't')?;
    let mut arguments = Exprs::new(rt.alloc());
    arguments.push(Expr::Text(copy_text(rt.alloc(), &text)?))?;
    arguments.push(Expr::Int(9))?;
    let Expr::Call(called, arguments) = Expr::call(name(rt.alloc(), "f")?, arguments) else {
        return Err("no call".into());
    };
    assert_eq!(rt; called.as_str(), "f");
    assert_eq!(rt; arguments.len(), 2);
    let Expr::Tuple(parts) = Expr::tuple(arguments) else {
        return Err("no tuple".into());
    };
    let [Expr::Text(first), second] = parts.as_slice() else {
        return Err("not two parts".into());
    };
    assert_eq!(rt; first.as_slice(), b"t".as_slice());
    assert!(rt; is_int(second, 9));
    Ok(())
}

// Whether the type is this name.
fn is_type(ty: &TypeExpr, text: &str) -> bool {
    match ty {
        TypeExpr::Named(name) => name.as_str() == text,
        _ => false,
    }
}

#[test]
fn types_are_copied(rt: HostRuntime) -> Result<(), Fail> {
    let mut parts = TypeExprs::new(rt.alloc());
    parts.push(TypeExpr::Named(name(rt.alloc(), "int")?))?;
    parts.push(TypeExpr::Named(name(rt.alloc(), "qubit")?))?;
    let TypeExpr::Tuple(copies) = TypeExpr::tuple(parts)?.copy()? else {
        return Err("no tuple".into());
    };
    let [TypeExpr::Named(first), TypeExpr::Named(second)] = copies.as_slice() else {
        return Err("not two names".into());
    };
    assert_eq!(rt; first.as_str(), "int");
    assert_eq!(rt; second.as_str(), "qubit");
    Ok(())
}

#[test]
fn function_types_have_their_parts(rt: HostRuntime) -> Result<(), Fail> {
    let alloc = rt.alloc();
    let ty = TypeExpr::Named(name(alloc, "qubit")?);
    let mut params = FunParamExprs::new(alloc);
    params.push(FunParamExpr { ty, owned: true })?;
    let answer = TypeExpr::Named(name(alloc, "bool")?);
    let made = TypeExpr::function(alloc, params, Some(answer))?.copy()?;
    let TypeExpr::Callable(params, Some(answer)) = &made else {
        return Err("no function type with an answer".into());
    };
    let [param] = params.as_slice() else {
        return Err("not one parameter".into());
    };
    assert!(rt; param.owned);
    assert!(rt; is_type(&param.ty, "qubit"));
    assert!(rt; is_type(answer.as_ref(), "bool"));
    let made = TypeExpr::function(alloc, FunParamExprs::new(alloc), None)?;
    assert!(rt; matches!(made, TypeExpr::Callable(_, None)));
    Ok(())
}

#[test]
fn headers_keep_what_stands_behind_the_colon(rt: HostRuntime) -> Result<(), Fail> {
    let alloc = rt.alloc();
    let header = LineForm::if_header(alloc, Expr::Bool(true), None)?;
    assert!(rt; matches!(header, LineForm::If(_, None)));
    let header = LineForm::elif_header(alloc, Expr::Bool(true), Some(LineForm::Break))?;
    assert!(rt; matches!(header, LineForm::Elif(_, Some(_))));
    let header = LineForm::while_header(alloc, Expr::Bool(true), Some(LineForm::Pass))?;
    assert!(rt; matches!(header, LineForm::While(_, Some(_))));
    let header = LineForm::else_header(alloc, Some(LineForm::Continue))?;
    assert!(rt; matches!(header, LineForm::Else(Some(_))));
    let count = name(alloc, "k")?;
    let header = LineForm::for_header(alloc, count, Expr::Int(3), Some(LineForm::Docstring))?;
    assert!(rt; matches!(header, LineForm::For(_, _, Some(_))));
    let def = name(alloc, "f")?;
    let header = LineForm::def_header(alloc, def, Params::new(alloc), None, Some(LineForm::Break))?;
    assert!(rt; matches!(header, LineForm::Def(_, _, _, Some(_))));
    Ok(())
}
