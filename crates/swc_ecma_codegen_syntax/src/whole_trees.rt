//! What links hold in a whole tree.

ghost use Rattle.std.specs.Prelude.{◌≡◌, refl, true, false};
ghost use Rattle.swc_ecma_codegen_grammar.specs.declared.roles.Role.TheVariants.{Pattern};
ghost use Rattle.swc_ecma_codegen_syntax.specs.Derives.{expr_verdict, pat_verdict, stmt_verdict, item_verdict, program_verdict};
ghost use Rattle.swc_ecma_codegen_syntax.specs.Forms.{judge, of_part};
ghost use Rattle.swc_ecma_codegen_syntax.specs.ModuleForms.{item_form, program_form};
ghost use Rattle.swc_ecma_codegen_syntax.specs.NodeForms.{expr_facts, part_facts, stmt_facts};
ghost use Rattle.swc_ecma_codegen_syntax.specs.Verdicts.{meet, unasked};
ghost use Rattle.swc_ecma_codegen_syntax.specs.declared.nonterminals.Nonterminal.{Nonterminal as Place};
ghost use Rattle.swc_ecma_codegen_syntax.specs.declared.parameters.Parameters.{Parameters};
ghost use Rattle.swc_ecma_codegen_tree.specs.declared.exprs.Expr.{Expr};
ghost use Rattle.swc_ecma_codegen_tree.specs.declared.links.AnyNode.{AnyNode as Whole};
ghost use Rattle.swc_ecma_codegen_tree.specs.declared.parts.ExprPart.TheVariants.{Pat as APat};
ghost use Rattle.swc_ecma_codegen_tree.specs.declared.pats.Pat.{Pat};
ghost use Rattle.swc_ecma_codegen_tree.specs.declared.programs.ModuleItem.{ModuleItem};
ghost use Rattle.swc_ecma_codegen_tree.specs.declared.programs.Program.{Program};
ghost use Rattle.swc_ecma_codegen_tree.specs.declared.stmts.Stmt.{Stmt};

use crate::forms::Answers;
use swc_ecma_codegen_tree::AnyNode;

/// What links hold in a whole tree, which is `AnyNode` alone. What asks about a root is generic in
/// it: a check takes seconds for each signature that names `AnyNode`, and a tenth of one for this
/// bound.
pub trait WholeTree: Answers {
    /// A root as one of a tree whose links hold `AnyNode`, and below, what its nodes answer is what
    /// is said of it there.
    ghost expr_in: { Expr Self → Expr Whole };

    ghost pat_in: { Pat Self → Pat Whole };

    ghost stmt_in: { Stmt Self → Stmt Whole };

    ghost item_in: { ModuleItem Self → ModuleItem Whole };

    ghost program_in: { Program Self → Program Whole };

    ghost expr_is_told: { (place : Place) (c : Parameters) (n : Expr Self)
        → of_part place unasked (expr_facts Self.answers false c n)
        ≡ expr_verdict place c (expr_in n) };

    ghost pat_is_told: { (place : Place) (c : Parameters) (n : Pat Self)
        → of_part place unasked (part_facts Self.answers c (APat n) Pattern)
        ≡ pat_verdict place c (pat_in n) };

    ghost stmt_is_told: { (place : Place) (c : Parameters) (n : Stmt Self)
        → of_part place unasked (stmt_facts Self.answers c n) ≡ stmt_verdict place c (stmt_in n) };

    ghost item_is_told: { (c : Parameters) (n : ModuleItem Self)
        → judge Self.answers unasked (item_form c n) ≡ item_verdict c (item_in n) };

    ghost program_is_told: { (n : Program Self)
        → meet (judge Self.answers unasked (program_form false n))
        (judge Self.answers unasked (program_form true n))
        ≡ program_verdict (program_in n) };
}

impl WholeTree for AnyNode {
    ghost expr_in = { λ n. n };

    ghost pat_in = { λ n. n };

    ghost stmt_in = { λ n. n };

    ghost item_in = { λ n. n };

    ghost program_in = { λ n. n };

    ghost expr_is_told = { λ _ _ _. refl };

    ghost pat_is_told = { λ _ _ _. refl };

    ghost stmt_is_told = { λ _ _ _. refl };

    ghost item_is_told = { λ _ _. refl };

    ghost program_is_told = { λ _. refl };
}
