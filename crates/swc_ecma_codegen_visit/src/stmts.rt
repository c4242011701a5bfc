//! Links and names of statements. Made by scripts/dev/make-visit-files.

ghost use Rattle.swc_ecma_codegen_visit.specs.MappedStmts.{map_with_stmt, map_return_stmt};
ghost use Rattle.swc_ecma_codegen_visit.specs.MappedStmts.{map_labeled_stmt, map_break_stmt};
ghost use Rattle.swc_ecma_codegen_visit.specs.MappedStmts.{map_continue_stmt, map_if_stmt};
ghost use Rattle.swc_ecma_codegen_visit.specs.MappedStmts.{map_switch_case, map_switch_stmt};
ghost use Rattle.swc_ecma_codegen_visit.specs.MappedStmts.{map_throw_stmt, map_catch_clause};
ghost use Rattle.swc_ecma_codegen_visit.specs.MappedStmts.{map_try_stmt, map_while_stmt};
ghost use Rattle.swc_ecma_codegen_visit.specs.MappedStmts.{map_do_while_stmt, map_var_decl_or_expr};
ghost use Rattle.swc_ecma_codegen_visit.specs.MappedStmts.{map_for_stmt, map_for_head};
ghost use Rattle.swc_ecma_codegen_visit.specs.MappedStmts.{map_for_in_stmt, map_for_of_stmt};
ghost use Rattle.swc_ecma_codegen_visit.specs.MappedStmts.{map_expr_stmt, map_stmt, map_block_stmt};

use crate::below::{Below, Links, Stop};
use swc_ecma_codegen_tree::{
    BlockStmt, BreakStmt, CatchClause, ContinueStmt, DoWhileStmt, ExprStmt, ForHead, ForInStmt,
    ForOfStmt, ForStmt, IfStmt, LabeledStmt, ReturnStmt, Stmt, SwitchCase, SwitchStmt, ThrowStmt,
    TryStmt, VarDeclOrExpr, WhileStmt, WithStmt,
};

impl<N> Links<N> for WithStmt<N> {
    ghost mapped = { map_with_stmt };

    fn links_mut<C, B: Below<N, C>>(&mut self, below: &B, change: &mut C) -> Result<(), Stop> {
        self.obj.links_mut(below, change)?;
        self.body.links_mut(below, change)
    }
}

impl<N> Links<N> for ReturnStmt<N> {
    ghost mapped = { map_return_stmt };

    fn links_mut<C, B: Below<N, C>>(&mut self, below: &B, change: &mut C) -> Result<(), Stop> {
        self.arg.links_mut(below, change)
    }
}

impl<N> Links<N> for LabeledStmt<N> {
    ghost mapped = { map_labeled_stmt };

    fn links_mut<C, B: Below<N, C>>(&mut self, below: &B, change: &mut C) -> Result<(), Stop> {
        self.label.links_mut(below, change)?;
        self.body.links_mut(below, change)
    }
}

impl<N> Links<N> for BreakStmt {
    ghost mapped = { λ g f. map_break_stmt g };

    fn links_mut<C, B: Below<N, C>>(&mut self, below: &B, change: &mut C) -> Result<(), Stop> {
        self.label.links_mut(below, change)
    }
}

impl<N> Links<N> for ContinueStmt {
    ghost mapped = { λ g f. map_continue_stmt g };

    fn links_mut<C, B: Below<N, C>>(&mut self, below: &B, change: &mut C) -> Result<(), Stop> {
        self.label.links_mut(below, change)
    }
}

impl<N> Links<N> for IfStmt<N> {
    ghost mapped = { map_if_stmt };

    fn links_mut<C, B: Below<N, C>>(&mut self, below: &B, change: &mut C) -> Result<(), Stop> {
        self.test.links_mut(below, change)?;
        self.cons.links_mut(below, change)?;
        self.alt.links_mut(below, change)
    }
}

impl<N> Links<N> for SwitchCase<N> {
    ghost mapped = { map_switch_case };

    fn links_mut<C, B: Below<N, C>>(&mut self, below: &B, change: &mut C) -> Result<(), Stop> {
        self.test.links_mut(below, change)?;
        self.cons.links_mut(below, change)
    }
}

impl<N> Links<N> for SwitchStmt<N> {
    ghost mapped = { map_switch_stmt };

    fn links_mut<C, B: Below<N, C>>(&mut self, below: &B, change: &mut C) -> Result<(), Stop> {
        self.discriminant.links_mut(below, change)?;
        self.cases.links_mut(below, change)
    }
}

impl<N> Links<N> for ThrowStmt<N> {
    ghost mapped = { map_throw_stmt };

    fn links_mut<C, B: Below<N, C>>(&mut self, below: &B, change: &mut C) -> Result<(), Stop> {
        self.arg.links_mut(below, change)
    }
}

impl<N> Links<N> for CatchClause<N> {
    ghost mapped = { map_catch_clause };

    fn links_mut<C, B: Below<N, C>>(&mut self, below: &B, change: &mut C) -> Result<(), Stop> {
        self.param.links_mut(below, change)?;
        self.body.links_mut(below, change)
    }
}

impl<N> Links<N> for TryStmt<N> {
    ghost mapped = { map_try_stmt };

    fn links_mut<C, B: Below<N, C>>(&mut self, below: &B, change: &mut C) -> Result<(), Stop> {
        self.block.links_mut(below, change)?;
        self.handler.links_mut(below, change)?;
        self.finalizer.links_mut(below, change)
    }
}

impl<N> Links<N> for WhileStmt<N> {
    ghost mapped = { map_while_stmt };

    fn links_mut<C, B: Below<N, C>>(&mut self, below: &B, change: &mut C) -> Result<(), Stop> {
        self.test.links_mut(below, change)?;
        self.body.links_mut(below, change)
    }
}

impl<N> Links<N> for DoWhileStmt<N> {
    ghost mapped = { map_do_while_stmt };

    fn links_mut<C, B: Below<N, C>>(&mut self, below: &B, change: &mut C) -> Result<(), Stop> {
        self.test.links_mut(below, change)?;
        self.body.links_mut(below, change)
    }
}

impl<N> Links<N> for VarDeclOrExpr<N> {
    ghost mapped = { map_var_decl_or_expr };

    fn links_mut<C, B: Below<N, C>>(&mut self, below: &B, change: &mut C) -> Result<(), Stop> {
        match self {
            VarDeclOrExpr::VarDecl(node) => node.links_mut(below, change),
            VarDeclOrExpr::Expr(node) => node.links_mut(below, change),
        }
    }
}

impl<N> Links<N> for ForStmt<N> {
    ghost mapped = { map_for_stmt };

    fn links_mut<C, B: Below<N, C>>(&mut self, below: &B, change: &mut C) -> Result<(), Stop> {
        self.init.links_mut(below, change)?;
        self.test.links_mut(below, change)?;
        self.update.links_mut(below, change)?;
        self.body.links_mut(below, change)
    }
}

impl<N> Links<N> for ForHead<N> {
    ghost mapped = { map_for_head };

    fn links_mut<C, B: Below<N, C>>(&mut self, below: &B, change: &mut C) -> Result<(), Stop> {
        match self {
            ForHead::VarDecl(node) => node.links_mut(below, change),
            ForHead::UsingDecl(node) => node.links_mut(below, change),
            ForHead::Pat(node) => node.links_mut(below, change),
        }
    }
}

impl<N> Links<N> for ForInStmt<N> {
    ghost mapped = { map_for_in_stmt };

    fn links_mut<C, B: Below<N, C>>(&mut self, below: &B, change: &mut C) -> Result<(), Stop> {
        self.left.links_mut(below, change)?;
        self.right.links_mut(below, change)?;
        self.body.links_mut(below, change)
    }
}

impl<N> Links<N> for ForOfStmt<N> {
    ghost mapped = { map_for_of_stmt };

    fn links_mut<C, B: Below<N, C>>(&mut self, below: &B, change: &mut C) -> Result<(), Stop> {
        self.left.links_mut(below, change)?;
        self.right.links_mut(below, change)?;
        self.body.links_mut(below, change)
    }
}

impl<N> Links<N> for ExprStmt<N> {
    ghost mapped = { map_expr_stmt };

    fn links_mut<C, B: Below<N, C>>(&mut self, below: &B, change: &mut C) -> Result<(), Stop> {
        self.expr.links_mut(below, change)
    }
}

impl<N> Links<N> for Stmt<N> {
    ghost mapped = { map_stmt };

    fn links_mut<C, B: Below<N, C>>(&mut self, below: &B, change: &mut C) -> Result<(), Stop> {
        match self {
            Stmt::Block(node) => node.links_mut(below, change),
            Stmt::With(node) => node.links_mut(below, change),
            Stmt::Return(node) => node.links_mut(below, change),
            Stmt::Labeled(node) => node.links_mut(below, change),
            Stmt::Break(node) => node.links_mut(below, change),
            Stmt::Continue(node) => node.links_mut(below, change),
            Stmt::If(node) => node.links_mut(below, change),
            Stmt::Switch(node) => node.links_mut(below, change),
            Stmt::Throw(node) => node.links_mut(below, change),
            Stmt::Try(node) => node.links_mut(below, change),
            Stmt::While(node) => node.links_mut(below, change),
            Stmt::DoWhile(node) => node.links_mut(below, change),
            Stmt::For(node) => node.links_mut(below, change),
            Stmt::ForIn(node) => node.links_mut(below, change),
            Stmt::ForOf(node) => node.links_mut(below, change),
            Stmt::Decl(node) => node.links_mut(below, change),
            Stmt::Expr(node) => node.links_mut(below, change),
            Stmt::Empty(_) | Stmt::Debugger(_) => Ok(()),
        }
    }
}

impl<N> Links<N> for BlockStmt<N> {
    ghost mapped = { map_block_stmt };

    fn links_mut<C, B: Below<N, C>>(&mut self, below: &B, change: &mut C) -> Result<(), Stop> {
        self.stmts.links_mut(below, change)
    }
}
