//! Modules and programs.

ghost use Rattle.swc_ecma_codegen_parentheses.specs.SameModules.{same_export_decl, same_default_decl, same_export_default_decl, same_export_default_expr, same_module_item, same_module, same_script, same_program, same_module_decl};

use crate::mends::{Mend, Mends, Stop, Usage};
use crate::places::Place;
use std::alloc::Global;
use swc_ecma_codegen_grammar::roles::Role;
use swc_ecma_codegen_syntax::{Answers, Lookahead, Nonterminal};
use swc_ecma_codegen_tree::{
    DefaultDecl, ExportDecl, ExportDefaultDecl, ExportDefaultExpr, Module, ModuleDecl, ModuleItem,
    Program, Script,
};

impl<N: Answers, M: Mends<N>> Mend<N, M> for ExportDecl<N> {
    ghost same = { same_export_decl };

    #[tactic(auto, unfolding(crate::specs::SameModules::same_export_decl))]
    fn mend(&mut self, mender: &M, alloc: Global, place: Place) -> Result<(), Stop> {
        self.decl.mend(mender, alloc, place)
    }
}

impl<N: Answers, M: Mends<N>> Mend<N, M> for DefaultDecl<N> {
    ghost same = { same_default_decl };

    #[tactic(auto, unfolding(crate::specs::SameModules::same_default_decl))]
    fn mend(&mut self, mender: &M, alloc: Global, place: Place) -> Result<(), Stop> {
        match self {
            DefaultDecl::Class(node) => node.mend(mender, alloc, place),
            DefaultDecl::Fn(node) => node.mend(mender, alloc, place),
            _ => Ok(()),
        }
    }
}

impl<N: Answers, M: Mends<N>> Mend<N, M> for ExportDefaultDecl<N> {
    ghost same = { same_export_default_decl };

    #[tactic(auto, unfolding(crate::specs::SameModules::same_export_default_decl))]
    fn mend(&mut self, mender: &M, alloc: Global, place: Place) -> Result<(), Stop> {
        self.decl.mend(mender, alloc, place)
    }
}

impl<N: Answers, M: Mends<N>> Mend<N, M> for ExportDefaultExpr<N> {
    ghost same = { same_export_default_expr };

    #[tactic(auto, unfolding(crate::specs::SameModules::same_export_default_expr))]
    fn mend(&mut self, mender: &M, alloc: Global, place: Place) -> Result<(), Stop> {
        let begins = self.expr.target().begins(Role::Expression);
        let whole = place.bracketed(Nonterminal::AssignmentExpression);
        let whole = whole.restricted(Lookahead::DefaultStart, begins);
        let usage = Usage::under(Lookahead::DefaultStart, Nonterminal::AssignmentExpression);
        mender.expr(alloc, &mut self.expr, whole, usage)
    }
}

impl<N: Answers, M: Mends<N>> Mend<N, M> for ModuleItem<N> {
    ghost same = { same_module_item };

    #[tactic(auto, unfolding(crate::specs::SameModules::same_module_item))]
    fn mend(&mut self, mender: &M, alloc: Global, place: Place) -> Result<(), Stop> {
        match self {
            ModuleItem::ModuleDecl(node) => node.mend(mender, alloc, place),
            ModuleItem::Stmt(node) => node.mend(mender, alloc, place),
        }
    }
}

impl<N: Answers, M: Mends<N>> Mend<N, M> for Module<N> {
    ghost same = { same_module };

    #[tactic(auto, unfolding(crate::specs::SameModules::same_module))]
    fn mend(&mut self, mender: &M, alloc: Global, place: Place) -> Result<(), Stop> {
        self.body.mend(mender, alloc, place.listed())
    }
}

impl<N: Answers, M: Mends<N>> Mend<N, M> for Script<N> {
    ghost same = { same_script };

    #[tactic(auto, unfolding(crate::specs::SameModules::same_script))]
    fn mend(&mut self, mender: &M, alloc: Global, place: Place) -> Result<(), Stop> {
        self.body.mend(mender, alloc, place.listed())
    }
}

impl<N: Answers, M: Mends<N>> Mend<N, M> for Program<N> {
    ghost same = { same_program };

    #[tactic(auto, unfolding(crate::specs::SameModules::same_program))]
    fn mend(&mut self, mender: &M, alloc: Global, place: Place) -> Result<(), Stop> {
        match self {
            Program::Module(node) => node.mend(mender, alloc, place),
            Program::Script(node) => node.mend(mender, alloc, place),
        }
    }
}

impl<N: Answers, M: Mends<N>> Mend<N, M> for ModuleDecl<N> {
    ghost same = { same_module_decl };

    #[tactic(auto, unfolding(crate::specs::SameModules::same_module_decl))]
    fn mend(&mut self, mender: &M, alloc: Global, place: Place) -> Result<(), Stop> {
        match self {
            ModuleDecl::ExportDecl(node) => node.mend(mender, alloc, place),
            ModuleDecl::ExportDefaultDecl(node) => node.mend(mender, alloc, place),
            ModuleDecl::ExportDefaultExpr(node) => node.mend(mender, alloc, place),
            ModuleDecl::TsExportAssignment(node) => node.mend(mender, alloc, place),
            _ => Ok(()),
        }
    }
}
