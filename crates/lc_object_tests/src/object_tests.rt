//! Tests of objects and of their edges.
use lc_base::{ColId, Name, OpId, OutOfMemory, PointId};
use lc_object::{
    Array, ArrayId, Column, EdgeKind, Instr, LocalId, Object, Operation, Parts, Point, edges,
};
use lc_term::{ColExpr, Term};
use std::alloc::Global;
use std::test::Fail;

/// The entry, followed by the return of 7.
fn points(alloc: Global, name: Name, entry: Instr) -> Result<Vec<Point>, OutOfMemory> {
    let first = Point {
        name,
        operation: OpId(0),
        instruction: entry,
    };
    let last = Point {
        name,
        operation: OpId(0),
        instruction: returns(alloc, Term::Number(7))?,
    };
    Ok(Vec::from_array(alloc, [first, last])?)
}

/// One array of the column 0.
fn arrays(alloc: Global, name: Name) -> Result<Vec<Array>, OutOfMemory> {
    let columns = Vec::from_array(alloc, [ColId(0)])?;
    Ok(Vec::from_array(alloc, [Array { name, columns }])?)
}

/// One operation that replies once, with one local, which is variable 2.
fn operations(alloc: Global, name: Name) -> Result<Vec<Operation>, OutOfMemory> {
    let operation = Operation {
        name,
        arguments: Vec::new(alloc),
        replies: 1,
        locals: Vec::from_array(alloc, [name])?,
        entry: PointId(0),
    };
    Ok(Vec::from_array(alloc, [operation])?)
}

/// An object whose entry has this instruction.
fn object(alloc: Global, entry: Instr) -> Result<Option<Object>, OutOfMemory> {
    let name = Name::new("p").ok_or(OutOfMemory)?;
    let points = points(alloc, name, entry)?;
    let column = Column {
        name,
        slope: 0,
        start: 0,
    };
    let concretes = Vec::from_array(alloc, [column])?;
    let arrays = arrays(alloc, name)?;
    Ok(Object::new(Parts {
        name,
        abstracts: Vec::new(alloc),
        concretes,
        auxiliaries: Vec::new(alloc),
        arrays,
        operations: operations(alloc, name)?,
        points,
    }))
}

/// Whether the return of a value is an instruction of an object.
fn is_returned(alloc: Global, value: Term) -> Result<bool, OutOfMemory> {
    Ok(object(alloc, returns(alloc, value)?)?.is_some())
}

fn returns(alloc: Global, value: Term) -> Result<Instr, OutOfMemory> {
    Ok(Instr::Return {
        values: Vec::from_array(alloc, [value])?,
    })
}

fn swap(alloc: Global, label: u32) -> Result<Instr, OutOfMemory> {
    let old = Vec::from_array(alloc, [Term::Variable(2)])?;
    Ok(Instr::Cas {
        array: ArrayId(0),
        index: Term::Number(0),
        old,
        new: Vec::from_array(alloc, [Term::Number(7)])?,
        equal: PointId(1),
        different: PointId(label),
    })
}

/// The label of a point, and that of none.
fn labels_are_looked_up(alloc: Global) -> Result<bool, OutOfMemory> {
    let there = object(alloc, swap(alloc, 0)?)?.is_some();
    Ok(there & object(alloc, swap(alloc, 2)?)?.is_none())
}

/// A local, a variable that is not there, the number of clients, and a column.
fn terms_are_those_of_code(alloc: Global) -> Result<bool, OutOfMemory> {
    let local = is_returned(alloc, Term::Variable(2))?;
    let none = is_returned(alloc, Term::Variable(3))?;
    let clients = is_returned(alloc, Term::Variable(0))?;
    let read = Term::read(alloc, ColExpr::Base(ColId(0)), Term::Number(0))?;
    let column = is_returned(alloc, read)?;
    Ok(local & !none & !clients & !column)
}

/// Too few replies, and a row that is too wide.
fn rows_have_their_width(alloc: Global) -> Result<bool, OutOfMemory> {
    let values = Vec::new(alloc);
    let replies = object(alloc, Instr::Return { values })?.is_none();
    let wide = Instr::Load {
        array: ArrayId(0),
        index: Term::Number(0),
        targets: Vec::new(alloc),
        next: PointId(0),
    };
    Ok(replies & object(alloc, wide)?.is_none())
}

/// A target twice.
fn targets_differ(alloc: Global) -> Result<bool, OutOfMemory> {
    let targets = Vec::from_array(alloc, [LocalId(2), LocalId(2)])?;
    let twice = Instr::Set {
        targets,
        values: Vec::from_array(alloc, [Term::Number(1), Term::Number(2)])?,
        next: PointId(0),
    };
    Ok(object(alloc, twice)?.is_none())
}

#[test]
fn instructions_name_what_is_there(rt: HostRuntime) -> Result<(), Fail> {
    let alloc = rt.alloc();
    let names = labels_are_looked_up(alloc)? & terms_are_those_of_code(alloc)?;
    assert!(rt; names & rows_have_their_width(alloc)? & targets_differ(alloc)?);
    Ok(())
}

/// Whether a swap has its two edges and then the return its one.
fn are_in_order(alloc: Global, object: &Object) -> Result<bool, OutOfMemory> {
    let table = edges(alloc, object)?;
    let first = table
        .first()
        .is_some_and(|edge| edge.kind == EdgeKind::Then);
    let last = table.last().is_some_and(|edge| edge.next.is_none());
    Ok(first & last & (table.len() == 3))
}

#[test]
fn the_table_has_the_edges_in_order(rt: HostRuntime) -> Result<(), Fail> {
    let object = object(rt.alloc(), swap(rt.alloc(), 0)?)?.ok_or("it is no object")?;
    assert!(rt; are_in_order(rt.alloc(), &object)?);
    Ok(())
}
