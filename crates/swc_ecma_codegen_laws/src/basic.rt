//! Laws of trees of names and operators alone.

ghost use Rattle.std.specs.Prelude.{◌≡◌, true};
ghost use Rattle.std.specs.String.{string_bytes};
ghost use Rattle.swc_ecma_codegen_tree.specs.declared.links.AnyNode.{AnyNode};
ghost use Rattle.swc_ecma_codegen_tree.specs.declared.idents.Ident.{Ident};
ghost use Rattle.swc_ecma_codegen_tree.specs.declared.idents.IdentName.{IdentName};
ghost use Rattle.swc_ecma_codegen_tree.specs.declared.exprs.Expr.TheVariants as exprs;
ghost use Rattle.swc_ecma_codegen_tree.specs.declared.exprs.ThisExpr.{ThisExpr};
ghost use Rattle.swc_ecma_codegen_tree.specs.declared.exprs.UnaryExpr.{UnaryExpr};
ghost use Rattle.swc_ecma_codegen_tree.specs.declared.exprs.UpdateExpr.{UpdateExpr};
ghost use Rattle.swc_ecma_codegen_tree.specs.declared.exprs.BinExpr.{BinExpr};
ghost use Rattle.swc_ecma_codegen_tree.specs.declared.exprs.ComputedPropName.{ComputedPropName};
ghost use Rattle.swc_ecma_codegen_tree.specs.declared.exprs.MemberExpr.{MemberExpr};
ghost use Rattle.swc_ecma_codegen_tree.specs.declared.exprs.CondExpr.{CondExpr};
ghost use Rattle.swc_ecma_codegen_tree.specs.declared.exprs.SeqExpr.{SeqExpr};
ghost use Rattle.swc_ecma_codegen_tree.specs.declared.exprs.ParenExpr.{ParenExpr};
ghost use Rattle.swc_ecma_codegen_tree.specs.declared.stmts.EmptyStmt.{EmptyStmt};
ghost use Rattle.swc_ecma_codegen_tree.specs.declared.stmts.ExprStmt.{ExprStmt};
ghost use Rattle.swc_ecma_codegen_tree.specs.declared.stmts.Stmt.TheVariants as stmts;
ghost use Rattle.swc_ecma_codegen_emit.specs.Answers.{any_answers};
ghost use Rattle.swc_ecma_codegen_emit.specs.Exprs.{this, ident, ident_name, unary, update, bin, computed_prop_name, member_at, choice, seq, paren};
ghost use Rattle.swc_ecma_codegen_emit.specs.Places.{by_itself, in_context};
ghost use Rattle.swc_ecma_codegen_emit.specs.Roots.{Root, OfExpr, OfStmt, root_items};
ghost use Rattle.swc_ecma_codegen_emit.specs.Stmts.{empty_stmt, expr_stmt};
ghost use Rattle.swc_ecma_codegen_emit.specs.Tree.{any_items};
ghost use Rattle.swc_ecma_codegen_laws.specs.Basic.{any_basic, is_bare, is_basic, TakesNoMemory};

/// An emission of names and operators alone takes no memory, nor comes to a node that can't be
/// printed, where the settings don't ask for ASCII and lines have no greatest length (a script
/// holds text in memory until it knows where its lines end), be the tree well-formed or not: a
/// script without a hashbang, statements of expressions and empty ones, and in these `this`, names,
/// `-a`, `a++`, `a + b`, `a.b`, `a[b]`, `a ? b : c`, `a, b` and `(a)`, where no name holds a
/// backslash. So by the clause `no_memory` of `emit_with` none is refused for memory over a writer
/// that takes none, and by its clause `succeeds` one over an emitter that is ready is `Ok` where
/// the writer counts no fault.
pub fn basic_trees_take_no_memory()
    ensures { (root : Root) → is_basic root ≡ true → TakesNoMemory (root_items root) }
{}

/// An emission of one such node by itself takes no memory, as `emit_with` prints it, without the
/// comments after it that it would take as an expression or a statement.
pub fn basic_nodes_take_no_memory()
    ensures this { (n : ThisExpr) → TakesNoMemory (by_itself (λ _. this n)) }
    ensures ident { (n : Ident) → is_bare (string_bytes n.sym) ≡ true →
        TakesNoMemory (by_itself (λ _. ident n)) }
    ensures ident_name { (n : IdentName) → is_bare (string_bytes n.sym) ≡ true →
        TakesNoMemory (by_itself (λ _. ident_name n)) }
    ensures unary { (n : UnaryExpr AnyNode) → is_basic (OfExpr (exprs.Unary n)) ≡ true →
        TakesNoMemory (by_itself (λ _. unary any_answers any_items n)) }
    ensures update { (n : UpdateExpr AnyNode) → is_basic (OfExpr (exprs.Update n)) ≡ true →
        TakesNoMemory (by_itself (λ _. update any_items n)) }
    ensures bin { (n : BinExpr AnyNode) → is_basic (OfExpr (exprs.Bin n)) ≡ true →
        TakesNoMemory (by_itself (in_context (bin any_answers any_items n))) }
    ensures computed { (n : ComputedPropName AnyNode) → any_basic n.expr.node.value ≡ true →
        TakesNoMemory (by_itself (λ _. computed_prop_name any_items n)) }
    ensures member { (n : MemberExpr AnyNode) → is_basic (OfExpr (exprs.Member n)) ≡ true →
        TakesNoMemory (by_itself (in_context (member_at any_items n))) }
    ensures cond { (n : CondExpr AnyNode) → is_basic (OfExpr (exprs.Cond n)) ≡ true →
        TakesNoMemory (by_itself (λ _. choice any_items n)) }
    ensures seq { (n : SeqExpr AnyNode) → is_basic (OfExpr (exprs.Seq n)) ≡ true →
        TakesNoMemory (by_itself (λ _. seq any_items n)) }
    ensures paren { (n : ParenExpr AnyNode) → is_basic (OfExpr (exprs.Paren n)) ≡ true →
        TakesNoMemory (by_itself (λ _. paren any_items n)) }
    ensures empty { (n : EmptyStmt) → TakesNoMemory (by_itself (λ _. empty_stmt n)) }
    ensures expr_stmt { (n : ExprStmt AnyNode) → is_basic (OfStmt (stmts.Expr n)) ≡ true →
        TakesNoMemory (by_itself (λ _. expr_stmt any_items n)) }
{}
