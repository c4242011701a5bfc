//! The flat form of a program: a list of nodes, in which a link is the number of an earlier one,
//! and the program at its end. However deep a tree is, its flat form nests a few levels only.

ghost use Rattle.std.specs.Prelude.{◌≡◌, ◌≢◌, ◌≤◌, length, IfSome, None, Some, Ok, Err};

use crate::input::Input;
use crate::names;
use crate::reading::{ExprPartSort, JSXPartSort, Make, Readable, Sort, StmtPartSort, TsPartSort};
use crate::source::{Failed, Fault, Form, Source};
use crate::stmt_nodes::read_program;
use crate::trees::Short;
use serde::{Deserialize, DeserializeOwned, Deserializer, Format};
use std::alloc::Global;
use std::cell::Cell;
use swc_ecma_codegen_tree::{AnyNode, Program};

/// A program that serde reads in its flat form,
/// `let tree: FlatTree<8000> = serde_json::from_slice(alloc, bytes)?`, if at most `LEVELS` links
/// lie below one another. That of `-a;` is
///
/// ```json
/// {"nodes":[
///   {"Expr":{"Ident":{"span":{"lo":2,"hi":3},"sym":"a","optional":false}}},
///   {"Expr":{"Unary":{"span":{"lo":1,"hi":3},"op":"Minus","arg":0}}},
///   {"Program":{"Script":{"span":{"lo":1,"hi":4},"body":[{"Expr":{"span":{"lo":1,"hi":4},"expr":1}}],"shebang":null}}}
/// ]}
/// ```
///
/// A node is what it is in a [`Tree`](crate::Tree), but a link in it is a number: how many nodes
/// stand before the one that it leads to. Each node is the value of an object of one member, whose
/// name is that of the link without `Box`, as `Expr` for an `ExprBox`. Exactly one link leads to
/// each node, and stands behind it; none leads to the program, which is the last.
///
/// Reading takes time by the length of the text, and no stack by the depth of the tree; but to
/// print a tree and to let it go do. A stack of 8 MiB has room for 8,000 links below one another of
/// any kind, and for 87,000 of parentheses.
pub struct FlatTree<const LEVELS: u32, N = AnyNode>(pub Program<N>);

impl<const LEVELS: u32, N: Drop> FlatTree<LEVELS, N> {
    /// The program.
    pub fn into_program(self) -> Program<N>
        ensures { result ≡ self.0 }
    {
        let FlatTree(program) = self;
        program
    }
}

/// By hand, since each crate that lets a tree go would prove again what `derive` makes.
impl<const LEVELS: u32, N: Drop> Drop for FlatTree<LEVELS, N> {
    fn drop(self) {
        let FlatTree(_) = self;
    }
}

impl<const LEVELS: u32, N: Readable> DeserializeOwned for FlatTree<LEVELS, N> {
    fn deserialize_owned<F: Format>(
        alloc: Global,
        from: &mut Deserializer<'_, '_, F>,
    ) -> Result<FlatTree<LEVELS, N>, F::Error> {
        match read_flat_tree(&mut Input::new(alloc, from, Form::Whole), LEVELS) {
            Ok(program) => Ok(FlatTree(program)),
            Err(error) => Err(error),
        }
    }
}

impl<const LEVELS: u32, N: Readable> DeserializeOwned for Short<FlatTree<LEVELS, N>> {
    fn deserialize_owned<F: Format>(
        alloc: Global,
        from: &mut Deserializer<'_, '_, F>,
    ) -> Result<Short<FlatTree<LEVELS, N>>, F::Error> {
        match read_flat_tree(&mut Input::new(alloc, from, Form::Short), LEVELS) {
            Ok(program) => Ok(Short(FlatTree(program))),
            Err(error) => Err(error),
        }
    }
}

impl<'de, const LEVELS: u32, N: Readable> Deserialize<'de> for FlatTree<LEVELS, N> {
    fn deserialize<F: Format>(
        alloc: Global,
        from: &mut Deserializer<'de, '_, F>,
    ) -> Result<FlatTree<LEVELS, N>, F::Error> {
        FlatTree::<LEVELS, N>::deserialize_owned(alloc, from)
    }
}

impl<'de, const LEVELS: u32, N: Readable> Deserialize<'de> for Short<FlatTree<LEVELS, N>> {
    fn deserialize<F: Format>(
        alloc: Global,
        from: &mut Deserializer<'de, '_, F>,
    ) -> Result<Short<FlatTree<LEVELS, N>>, F::Error> {
        Short::<FlatTree<LEVELS, N>>::deserialize_owned(alloc, from)
    }
}

/// The program that is read, or why there is none.
fn read_flat_tree<'a, 'de, 's, N: Readable, F: Format>(
    input: &mut Input<'a, 'de, 's, F>,
    most: u32,
) -> Result<Program<N>, F::Error> {
    match read_flat(input, most) {
        Ok(program) if !input.has_failed() => Ok(program),
        _ => Err(input.error()),
    }
}

/// A node that was read, with its sort, and how many links lie below one another from the one that
/// leads to it.
#[derive(Drop)]
struct Held<N: Drop> {
    sort: Sort,
    levels: u32,
    node: N,
}

/// The nodes that were read, by their numbers. One that a link leads to is taken out.
#[derive(Drop)]
struct Table<N: Drop> {
    nodes: Vec<Cell<Option<Held<N>>>>,
    /// The most levels of what was taken since the last node.
    deepest: Cell<u32>,
    /// The most levels that a node may have.
    most: u32,
}

impl<N: Drop> Table<N> {
    fn new(alloc: Global, most: u32) -> Table<N> {
        Table {
            nodes: Vec::new(alloc),
            deepest: Cell::new(0),
            most,
        }
    }

    /// Puts the next node into the table, whose links led to what was taken since the last one.
    fn push(&mut self, sort: Sort, node: N) -> Result<(), Fault<'static>> {
        let below = self.deepest.replace(0);
        if below >= self.most {
            return Err(Fault::TooDeep);
        }
        let held = Held {
            sort,
            levels: below + 1,
            node,
        };
        match self.nodes.push(Cell::new(Some(held))) {
            Ok(()) => Ok(()),
            Err(_) => Err(Fault::NoMemory),
        }
    }

    /// Takes the node of this number, to which a link to a sort of nodes leads.
    fn take(&self, sort: Sort, number: u32) -> Result<N, Fault<'static>>
        ensures { length self.now.nodes.items ≤ number → result ≡ Err (Fault.NoSuchNode number) }
    {
        let Some(cell) = self.nodes.get(number as usize) else {
            return Err(Fault::NoSuchNode(number));
        };
        let held = linked(cell.replace(None), sort, number)?;
        self.deepest.set(self.deepest.get().max(held.levels));
        Ok(held.node)
    }

    /// That a link led to each node, or the first to which none did.
    fn are_linked(&mut self) -> Result<(), Fault<'static>> {
        let mut number = 0u32;
        for cell in &mut self.nodes {
            if cell.get_mut().is_some() {
                return Err(Fault::NeverLinked(number));
            }
            number = number.saturating_add(1);
        }
        Ok(())
    }
}

impl<N: Drop> Make<N> for Table<N> {
    fn make<S: Source>(&self, sort: Sort, source: &mut S) -> Result<N, Failed> {
        let number = source.unsigned()?;
        match self.take(sort, number) {
            Ok(node) => Ok(node),
            Err(fault) => Err(source.fail(fault)),
        }
    }
}

/// The node of this number, to which a link to a sort of nodes leads. `held` is what the table has
/// of it: nothing where a link led to it before.
fn linked<N: Drop>(
    held: Option<Held<N>>,
    sort: Sort,
    number: u32,
) -> Result<Held<N>, Fault<'static>>
    ensures node { IfSome held (λ found. found.sort ≡ sort → result ≡ Ok found) }
    ensures other { IfSome held (λ found. found.sort ≢ sort →
        result ≡ Err (Fault.OtherSort number)) }
    ensures twice { held ≡ None → result ≡ Err (Fault.LinkedTwice number) }
{
    match held {
        Some(found) if found.sort == sort => Ok(found),
        Some(_) => Err(Fault::OtherSort(number)),
        None => Err(Fault::LinkedTwice(number)),
    }
}

/// Reads the object with the list of nodes. Its other members are passed over, or refused in the
/// short form.
fn read_flat<N: Readable, S: Source>(source: &mut S, most: u32) -> Result<Program<N>, Failed> {
    let mut program = None;
    source.begin_object()?;
    for _ in 0..u64::MAX {
        match source.next_member(names!(nodes))? {
            None => break,
            Some(0) => {
                if program.is_some() {
                    return Err(source.fail(Fault::Duplicate("nodes")));
                }
                program = Some(read_nodes(source, most)?);
            }
            Some(_) => source.skip_unwanted()?,
        }
    }
    match program {
        Some(program) => Ok(program),
        None => Err(source.fail(Fault::Missing("nodes"))),
    }
}

/// Reads the list of nodes, of which the last is the program.
fn read_nodes<N: Readable, S: Source>(source: &mut S, most: u32) -> Result<Program<N>, Failed> {
    let mut table = Table::new(source.alloc(), most);
    source.begin_list()?;
    for _ in 0..u64::MAX {
        if !source.next_item()? {
            break;
        }
        source.begin_object()?;
        match read_sort(source)? {
            Some(sort) => {
                let node = N::read_sorted(sort, source, &table)?;
                if let Err(fault) = table.push(sort, node) {
                    return Err(source.fail(fault));
                }
                source.end_object();
            }
            None => {
                let program = read_program(source, &table)?;
                end_nodes(source, &mut table);
                return Ok(program);
            }
        }
    }
    Err(source.fail(Fault::NoProgram))
}

/// Takes what comes behind the program. Where that is more than the ends, or no link led to a node,
/// the source fails from then on.
fn end_nodes<N: Drop, S: Source>(source: &mut S, table: &mut Table<N>) {
    source.end_object();
    if let Ok(true) = source.next_item() {
        source.fail(Fault::PastProgram);
    }
    if let Err(fault) = table.are_linked() {
        source.fail(fault);
    }
}

/// The sort that stands at the place of the next member's name among these names; none at that of
/// `Program` behind them.
macro_rules! sort_named {
    ($source:ident => $($name:ident: $sort:expr),* $(,)?) => {
        match $source.next_member(names!($($name),*, Program))? {
            Some(place) => match [$(Some($sort)),*, None].get(place) {
                Some(sort) => Ok(*sort),
                None => Err($source.fail(Fault::UnknownVariant)),
            },
            None => Err($source.fail(Fault::Invalid)),
        }
    };
}

/// Reads of what sort the node in an object is, by the name of its one member; none where it is the
/// program.
fn read_sort<S: Source>(source: &mut S) -> Result<Option<Sort>, Failed> {
    sort_named!(source =>
        Expr: Sort::Expr,
        Stmt: Sort::Stmt,
        MemberExpr: Sort::MemberExpr,
        Pat: Sort::ExprPart(ExprPartSort::Pat),
        Tpl: Sort::ExprPart(ExprPartSort::Tpl),
        ObjectLit: Sort::ExprPart(ExprPartSort::ObjectLit),
        PropName: Sort::ExprPart(ExprPartSort::PropName),
        OptCall: Sort::ExprPart(ExprPartSort::OptCall),
        AssignTarget: Sort::ExprPart(ExprPartSort::AssignTarget),
        Function: Sort::StmtPart(StmtPartSort::Function),
        Class: Sort::StmtPart(StmtPartSort::Class),
        BlockStmt: Sort::StmtPart(StmtPartSort::BlockStmt),
        Decl: Sort::StmtPart(StmtPartSort::Decl),
        ModuleDecl: Sort::StmtPart(StmtPartSort::ModuleDecl),
        VarDecl: Sort::StmtPart(StmtPartSort::VarDecl),
        ClassMember: Sort::StmtPart(StmtPartSort::ClassMember),
        JSXElement: Sort::JSXPart(JSXPartSort::JSXElement),
        JSXFragment: Sort::JSXPart(JSXPartSort::JSXFragment),
        JSXObject: Sort::JSXPart(JSXPartSort::JSXObject),
        TsType: Sort::TsPart(TsPartSort::TsType),
        TsNamespaceBody: Sort::TsPart(TsPartSort::TsNamespaceBody),
        TsTypeAnn: Sort::TsPart(TsPartSort::TsTypeAnn),
        TsTypeParamDecl: Sort::TsPart(TsPartSort::TsTypeParamDecl),
        TsTypeParamInstantiation: Sort::TsPart(TsPartSort::TsTypeParamInstantiation),
        TsFnParam: Sort::TsPart(TsPartSort::TsFnParam),
        TsInterfaceBody: Sort::TsPart(TsPartSort::TsInterfaceBody),
        TsEntityName: Sort::TsPart(TsPartSort::TsEntityName),
    )
}
