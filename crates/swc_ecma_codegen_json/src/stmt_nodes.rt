//! Nodes of the sorts of statements, as links hold them. A function each, since a check of one that
//! names the readers of many sorts is dear.

use crate::part;
use crate::reading::{Make, StmtPartSort, read};
use crate::source::{Failed, Source};
use swc_ecma_codegen_tree::{
    BlockStmt, Class, ClassMember, Decl, Function, ModuleDecl, Program, Stmt, StmtPart, VarDecl,
};

/// A statement, and all that lies below it.
pub fn read_stmt<N: Drop, S: Source, M: Make<N>>(
    source: &mut S,
    make: &M,
) -> Result<Stmt<N>, Failed> {
    read(source, make)
}

fn function<N: Drop, S: Source, M: Make<N>>(
    source: &mut S,
    make: &M,
) -> Result<StmtPart<N>, Failed> {
    part!(Function, source, make)
}

fn class<N: Drop, S: Source, M: Make<N>>(source: &mut S, make: &M) -> Result<StmtPart<N>, Failed> {
    part!(Class, source, make)
}

fn block_stmt<N: Drop, S: Source, M: Make<N>>(
    source: &mut S,
    make: &M,
) -> Result<StmtPart<N>, Failed> {
    part!(BlockStmt, source, make)
}

fn decl<N: Drop, S: Source, M: Make<N>>(source: &mut S, make: &M) -> Result<StmtPart<N>, Failed> {
    part!(Decl, source, make)
}

fn module_decl<N: Drop, S: Source, M: Make<N>>(
    source: &mut S,
    make: &M,
) -> Result<StmtPart<N>, Failed> {
    part!(ModuleDecl, source, make)
}

fn var_decl<N: Drop, S: Source, M: Make<N>>(
    source: &mut S,
    make: &M,
) -> Result<StmtPart<N>, Failed> {
    part!(VarDecl, source, make)
}

fn class_member<N: Drop, S: Source, M: Make<N>>(
    source: &mut S,
    make: &M,
) -> Result<StmtPart<N>, Failed> {
    part!(ClassMember, source, make)
}

/// A part of a statement, of a declaration, a class or a module, by its sort, and all that lies
/// below it.
pub fn read_stmt_part<N: Drop, S: Source, M: Make<N>>(
    sort: StmtPartSort,
    source: &mut S,
    make: &M,
) -> Result<StmtPart<N>, Failed> {
    match sort {
        StmtPartSort::Function => function(source, make),
        StmtPartSort::Class => class(source, make),
        StmtPartSort::BlockStmt => block_stmt(source, make),
        StmtPartSort::Decl => decl(source, make),
        StmtPartSort::ModuleDecl => module_decl(source, make),
        StmtPartSort::VarDecl => var_decl(source, make),
        StmtPartSort::ClassMember => class_member(source, make),
    }
}

/// A program, and all that lies below it.
pub fn read_program<N: Drop, S: Source, M: Make<N>>(
    source: &mut S,
    make: &M,
) -> Result<Program<N>, Failed> {
    read(source, make)
}
