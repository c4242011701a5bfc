//! Nodes whose links are freed from parentheses.

ghost use Rattle.std.specs.Prelude.{◌≡◌};
ghost use Rattle.std.specs.Result.{OnOk};
ghost use Rattle.std.specs.formers.vec.Vec.{mapped as vec_mapped};
ghost use Rattle.swc_ecma_codegen_parentheses.specs.declared.opens.Standing.TheVariants.{Value};
ghost use Rattle.swc_ecma_codegen_parentheses.specs.Bare.{open_expr_part, open_item, open_namespace_body, open_pat, open_program, open_stmt, open_stmt_part, open_target, open_ts_part, property_out};

use crate::opens::{Opens, Standing};
use swc_ecma_codegen_tree::{
    AssignTarget, ExprPart, Ident, ModuleItem, Pat, Program, SimpleAssignTarget, Stmt, StmtPart,
    TsNamespaceBody, TsPart,
};
use swc_ecma_codegen_visit::{Below, Links, Stop};

/// Takes what each link holds out of parentheses, and goes no further.
#[derive(Drop)]
struct Opening {}

impl<N: Opens> Below<N, Opening> for Opening {
    ghost ident_before = { λ n. n };

    ghost ident_after = { λ n. n };

    ghost before = { N.opened Value };

    ghost after = { λ n. n };

    fn ident(&self, _: &mut Opening, _: &mut Ident) -> Result<(), Stop> {
        Ok(())
    }

    fn held(&self, _: &mut Opening, node: &mut N) -> Result<(), Stop> {
        node.open_pair(Standing::Value);
        Ok(())
    }
}

/// Takes what the links of a node hold out of parentheses, where each is a value.
pub(crate) fn open_values<N: Opens, T: Links<N>>(node: &mut T) -> Result<(), Stop>
    ensures { OnOk result
        (T.mapped (λ n. n) (N.opened Value) node.old ≡ T.mapped (λ n. n) (λ n. n) node.new) }
{
    node.links_mut(&Opening {}, &mut Opening {})
}

/// A statement or an item, which stands in a list.
pub(crate) trait InList: Sized {
    /// The same with what its links hold out of parentheses.
    ghost opened: { Self → Self };

    /// Takes what its links hold out of parentheses.
    fn open_links(&mut self) -> Result<(), Stop>
        ensures { OnOk result (self.new ≡ opened self.old) };
}

impl<N: Opens> InList for Stmt<N> {
    ghost opened = { open_stmt N.opened };

    fn open_links(&mut self) -> Result<(), Stop> {
        match self {
            Stmt::Expr(node) => {
                node.expr.target_mut().open_pair(Standing::Statement);
                Ok(())
            }
            _ => open_values::<N, Stmt<N>>(self),
        }
    }
}

impl<N: Opens> InList for ModuleItem<N> {
    ghost opened = { open_item N.opened };

    fn open_links(&mut self) -> Result<(), Stop> {
        match self {
            ModuleItem::Stmt(node) => node.open_links(),
            ModuleItem::ModuleDecl(node) => {
                node.target_mut().open_pair(Standing::Value);
                Ok(())
            }
        }
    }
}

/// Takes what the links of each in a list hold out of parentheses.
fn open_each<T: InList>(list: &mut Vec<T>) -> Result<(), Stop>
    ensures { OnOk result (list.new ≡ vec_mapped T.opened list.old) }
{
    for node in list.iter_mut() {
        node.open_links()?;
    }
    Ok(())
}

/// The property in a pair of parentheses in the place of the pair: `a.b` of `(a.b) = c`.
fn property_out<N: Opens + Drop>(target: &mut AssignTarget<N>)
    ensures { target.new ≡ property_out N.property target.old }
{
    match target {
        AssignTarget::Simple(SimpleAssignTarget::Paren(pair)) => {
            if pair.expr.target().is_property() {
                match pair.expr.replace_target(N::nothing()).into_target() {
                    Some(property) => *target = property,
                    None => {}
                }
            }
        }
        _ => {}
    }
}

/// Takes what the links of a target hold out of parentheses, and a property that it is itself.
#[tactic(auto, using(crate::proofs::OtherNodes::target_left))]
fn open_target<N: Opens + Drop>(target: &mut AssignTarget<N>) -> Result<(), Stop>
    ensures { OnOk result (target.new ≡ open_target N.opened N.property target.old) }
{
    open_values::<N, AssignTarget<N>>(target)?;
    property_out(target);
    Ok(())
}

/// Takes what the links of a pattern hold out of parentheses.
fn open_pat<N: Opens>(pat: &mut Pat<N>) -> Result<(), Stop>
    ensures { OnOk result (pat.new ≡ open_pat N.opened pat.old) }
{
    match pat {
        Pat::Expr(link) => {
            link.target_mut().open_pair(Standing::Target);
            Ok(())
        }
        _ => open_values::<N, Pat<N>>(pat),
    }
}

/// Takes what the links of a part of an expression hold out of parentheses.
pub(crate) fn open_expr_part<N: Opens + Drop>(part: &mut ExprPart<N>) -> Result<(), Stop>
    ensures { OnOk result (part.new ≡ open_expr_part N.opened N.property part.old) }
{
    match part {
        ExprPart::Pat(pat) => open_pat(pat),
        ExprPart::AssignTarget(target) => open_target(target),
        _ => open_values::<N, ExprPart<N>>(part),
    }
}

/// Takes what the links of a part of a statement hold out of parentheses.
pub(crate) fn open_stmt_part<N: Opens>(part: &mut StmtPart<N>) -> Result<(), Stop>
    ensures { OnOk result (part.new ≡ open_stmt_part N.opened part.old) }
{
    match part {
        StmtPart::BlockStmt(block) => open_each(&mut block.stmts),
        _ => open_values::<N, StmtPart<N>>(part),
    }
}

/// Takes what the links of the body of a namespace hold out of parentheses.
fn open_namespace_body<N: Opens>(body: &mut TsNamespaceBody<N>) -> Result<(), Stop>
    ensures { OnOk result (body.new ≡ open_namespace_body N.opened body.old) }
{
    match body {
        TsNamespaceBody::TsModuleBlock(block) => open_each(&mut block.body),
        _ => open_values::<N, TsNamespaceBody<N>>(body),
    }
}

/// Takes what the links of a part of TypeScript hold out of parentheses.
pub(crate) fn open_ts_part<N: Opens>(part: &mut TsPart<N>) -> Result<(), Stop>
    ensures { OnOk result (part.new ≡ open_ts_part N.opened part.old) }
{
    match part {
        TsPart::TsNamespaceBody(body) => open_namespace_body(body),
        _ => open_values::<N, TsPart<N>>(part),
    }
}

/// Takes what the links of a program hold out of parentheses.
pub(crate) fn open_program<N: Opens>(program: &mut Program<N>) -> Result<(), Stop>
    ensures { OnOk result (program.new ≡ open_program N.opened program.old) }
{
    match program {
        Program::Module(module) => open_each(&mut module.body),
        Program::Script(script) => open_each(&mut script.body),
    }
}
