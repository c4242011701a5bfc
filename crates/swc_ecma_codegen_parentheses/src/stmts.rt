//! Statements and declarations.

ghost use Rattle.swc_ecma_codegen_parentheses.specs.SameDecls.{same_var_declarator, same_var_decl, same_using_decl, same_decl};
ghost use Rattle.swc_ecma_codegen_parentheses.specs.SameStmts.{same_with_stmt, same_return_stmt, same_labeled_stmt, same_if_stmt, same_switch_case, same_switch_stmt, same_throw_stmt, same_catch_clause, same_try_stmt, same_expr_stmt, same_stmt, same_block_stmt};

use crate::mends::{Mend, Mends, Stop, Usage, mend_bracketed, mend_if_any, mend_optional};
use crate::operands::{Context, Operand};
use crate::places::Place;
use crate::within::Within;
use std::alloc::Global;
use swc_ecma_codegen_grammar::roles::Role;
use swc_ecma_codegen_syntax::{Answers, Lookahead, Nonterminal};
use swc_ecma_codegen_tree::{
    BlockStmt, CatchClause, Decl, ExprStmt, IfStmt, LabeledStmt, ReturnStmt, Stmt, SwitchCase,
    SwitchStmt, ThrowStmt, TryStmt, UsingDecl, VarDecl, VarDeclarator, WithStmt,
};

impl<N: Answers, M: Mends<N>> Mend<N, M> for VarDeclarator<N> {
    ghost same = { same_var_declarator };

    #[tactic(auto, unfolding(crate::specs::SameDecls::same_var_declarator))]
    fn mend(&mut self, mender: &M, alloc: Global, place: Place) -> Result<(), Stop> {
        self.name.mend(mender, alloc, place)?;
        let init = place.here(Nonterminal::AssignmentExpression);
        mend_if_any(
            mender,
            alloc,
            &mut self.init,
            init,
            Usage::Operand(Operand::Last),
        )
    }
}

impl<N: Answers, M: Mends<N>> Mend<N, M> for VarDecl<N> {
    ghost same = { same_var_decl };

    #[tactic(auto, unfolding(crate::specs::SameDecls::same_var_decl))]
    fn mend(&mut self, mender: &M, alloc: Global, place: Place) -> Result<(), Stop> {
        self.decls.mend(mender, alloc, place)
    }
}

impl<N: Answers, M: Mends<N>> Mend<N, M> for UsingDecl<N> {
    ghost same = { same_using_decl };

    #[tactic(auto, unfolding(crate::specs::SameDecls::same_using_decl))]
    fn mend(&mut self, mender: &M, alloc: Global, place: Place) -> Result<(), Stop> {
        self.decls.mend(mender, alloc, place)
    }
}

impl<N: Answers, M: Mends<N>> Mend<N, M> for Decl<N> {
    ghost same = { same_decl };

    #[tactic(auto, unfolding(crate::specs::SameDecls::same_decl))]
    fn mend(&mut self, mender: &M, alloc: Global, place: Place) -> Result<(), Stop> {
        match self {
            Decl::Class(node) => node.mend(mender, alloc, place),
            Decl::Fn(node) => node.mend(mender, alloc, place),
            Decl::Var(node) => {
                let context = Context::declared();
                let within = Within { mender, context };
                node.mend(
                    &within,
                    alloc,
                    place.bracketed(Nonterminal::AssignmentExpression),
                )
            }
            Decl::Using(node) => {
                let context = Context::declared();
                let within = Within { mender, context };
                node.mend(
                    &within,
                    alloc,
                    place.bracketed(Nonterminal::AssignmentExpression),
                )
            }
            Decl::TsEnum(node) => node.mend(mender, alloc, place),
            _ => Ok(()),
        }
    }
}

impl<N: Answers, M: Mends<N>> Mend<N, M> for WithStmt<N> {
    ghost same = { same_with_stmt };

    #[tactic(auto, unfolding(crate::specs::SameStmts::same_with_stmt))]
    fn mend(&mut self, mender: &M, alloc: Global, place: Place) -> Result<(), Stop> {
        mend_bracketed(mender, alloc, &mut self.obj, place, Nonterminal::Expression)?;
        self.body.mend(mender, alloc, place)
    }
}

impl<N: Answers, M: Mends<N>> Mend<N, M> for ReturnStmt<N> {
    ghost same = { same_return_stmt };

    #[tactic(auto, unfolding(crate::specs::SameStmts::same_return_stmt))]
    fn mend(&mut self, mender: &M, alloc: Global, place: Place) -> Result<(), Stop> {
        mend_optional(mender, alloc, &mut self.arg, place, Nonterminal::Expression)
    }
}

impl<N: Answers, M: Mends<N>> Mend<N, M> for LabeledStmt<N> {
    ghost same = { same_labeled_stmt };

    #[tactic(auto, unfolding(crate::specs::SameStmts::same_labeled_stmt))]
    fn mend(&mut self, mender: &M, alloc: Global, place: Place) -> Result<(), Stop> {
        self.body.mend(mender, alloc, place)
    }
}

impl<N: Answers, M: Mends<N>> Mend<N, M> for IfStmt<N> {
    ghost same = { same_if_stmt };

    #[tactic(auto, unfolding(crate::specs::SameStmts::same_if_stmt))]
    fn mend(&mut self, mender: &M, alloc: Global, place: Place) -> Result<(), Stop> {
        let cons = place.before_else(self.alt.is_some());
        mend_bracketed(
            mender,
            alloc,
            &mut self.test,
            place,
            Nonterminal::Expression,
        )?;
        self.cons.mend(mender, alloc, cons)?;
        self.alt.mend(mender, alloc, place)
    }
}

impl<N: Answers, M: Mends<N>> Mend<N, M> for SwitchCase<N> {
    ghost same = { same_switch_case };

    #[tactic(auto, unfolding(crate::specs::SameStmts::same_switch_case))]
    fn mend(&mut self, mender: &M, alloc: Global, place: Place) -> Result<(), Stop> {
        mend_optional(
            mender,
            alloc,
            &mut self.test,
            place,
            Nonterminal::Expression,
        )?;
        self.cons.mend(mender, alloc, place.listed())
    }
}

impl<N: Answers, M: Mends<N>> Mend<N, M> for SwitchStmt<N> {
    ghost same = { same_switch_stmt };

    #[tactic(auto, unfolding(crate::specs::SameStmts::same_switch_stmt))]
    fn mend(&mut self, mender: &M, alloc: Global, place: Place) -> Result<(), Stop> {
        mend_bracketed(
            mender,
            alloc,
            &mut self.discriminant,
            place,
            Nonterminal::Expression,
        )?;
        self.cases.mend(mender, alloc, place)
    }
}

impl<N: Answers, M: Mends<N>> Mend<N, M> for ThrowStmt<N> {
    ghost same = { same_throw_stmt };

    #[tactic(auto, unfolding(crate::specs::SameStmts::same_throw_stmt))]
    fn mend(&mut self, mender: &M, alloc: Global, place: Place) -> Result<(), Stop> {
        mend_bracketed(mender, alloc, &mut self.arg, place, Nonterminal::Expression)
    }
}

impl<N: Answers, M: Mends<N>> Mend<N, M> for CatchClause<N> {
    ghost same = { same_catch_clause };

    #[tactic(auto, unfolding(crate::specs::SameStmts::same_catch_clause))]
    fn mend(&mut self, mender: &M, alloc: Global, place: Place) -> Result<(), Stop> {
        self.param.mend(mender, alloc, place)?;
        self.body.mend(mender, alloc, place)
    }
}

impl<N: Answers, M: Mends<N>> Mend<N, M> for TryStmt<N> {
    ghost same = { same_try_stmt };

    #[tactic(auto, unfolding(crate::specs::SameStmts::same_try_stmt))]
    fn mend(&mut self, mender: &M, alloc: Global, place: Place) -> Result<(), Stop> {
        self.block.mend(mender, alloc, place)?;
        self.handler.mend(mender, alloc, place)?;
        self.finalizer.mend(mender, alloc, place)
    }
}

impl<N: Answers, M: Mends<N>> Mend<N, M> for ExprStmt<N> {
    ghost same = { same_expr_stmt };

    #[tactic(auto, unfolding(crate::specs::SameStmts::same_expr_stmt))]
    fn mend(&mut self, mender: &M, alloc: Global, place: Place) -> Result<(), Stop> {
        let begins = self.expr.target().begins(Role::Expression);
        let whole = place.bracketed(Nonterminal::Expression);
        let whole = whole.restricted(Lookahead::StatementStart, begins);
        mender.expr(alloc, &mut self.expr, whole, Usage::Statement)
    }
}

impl<N: Answers, M: Mends<N>> Mend<N, M> for Stmt<N> {
    ghost same = { same_stmt };

    #[tactic(auto, using(crate::specs::SameStmts::unchanged))]
    fn mend(&mut self, mender: &M, alloc: Global, place: Place) -> Result<(), Stop> {
        match self {
            Stmt::Block(node) => node.mend(mender, alloc, place),
            Stmt::With(node) => node.mend(mender, alloc, place),
            Stmt::Return(node) => node.mend(mender, alloc, place),
            Stmt::Labeled(node) => node.mend(mender, alloc, place),
            Stmt::If(node) => node.mend(mender, alloc, place),
            Stmt::Switch(node) => node.mend(mender, alloc, place),
            Stmt::Throw(node) => node.mend(mender, alloc, place),
            Stmt::Try(node) => node.mend(mender, alloc, place),
            Stmt::While(node) => node.mend(mender, alloc, place),
            Stmt::DoWhile(node) => node.mend(mender, alloc, place),
            Stmt::For(node) => node.mend(mender, alloc, place),
            Stmt::ForIn(node) => node.mend(mender, alloc, place),
            Stmt::ForOf(node) => node.mend(mender, alloc, place),
            Stmt::Decl(node) => node.mend(mender, alloc, place),
            Stmt::Expr(node) => node.mend(mender, alloc, place),
            Stmt::Empty(_) | Stmt::Debugger(_) | Stmt::Break(_) | Stmt::Continue(_) => Ok(()),
        }
    }
}

impl<N: Answers, M: Mends<N>> Mend<N, M> for BlockStmt<N> {
    ghost same = { same_block_stmt };

    #[tactic(auto, unfolding(crate::specs::SameStmts::same_block_stmt))]
    fn mend(&mut self, mender: &M, alloc: Global, place: Place) -> Result<(), Stop> {
        self.stmts.mend(mender, alloc, place.listed())
    }
}
