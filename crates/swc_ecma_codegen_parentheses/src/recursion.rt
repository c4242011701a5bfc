//! The whole tree.

ghost use Rattle.swc_ecma_codegen_parentheses.specs.Depths.{same_levels};

use crate::changes::{
    Change, change_assign_target, change_block_stmt, change_class, change_class_member,
    change_decl, change_expr, change_function, change_jsx_element, change_jsx_fragment,
    change_member_expr, change_module_decl, change_opt_call, change_pat, change_prop_name,
    change_stmt, change_tpl, change_var_decl,
};
use crate::depths::MAX_DEPTH;
use crate::mends::{Mends, Stop, Usage};
use crate::places::Place;
use std::alloc::{AllocError, Global};
use std::marker::PhantomData;
use swc_ecma_codegen_tree::{
    AssignTargetBox, BlockStmtBox, ClassBox, ClassMemberBox, DeclBox, ExprBox, FunctionBox,
    JSXElementBox, JSXFragmentBox, MemberExprBox, ModuleDeclBox, OptCallBox, PatBox, PropNameBox,
    StmtBox, TplBox, VarDeclBox,
};

/// How many links may still lie below one another, for one change. It gets shorter at each link, so
/// that the pass ends.
#[derive(Drop)]
pub(crate) enum Levels<N, C> {
    Out(PhantomData<(N, C)>),
    More(Box<Levels<N, C>>),
}

/// As many levels as are gone down at most.
pub(crate) fn all_levels<N, C>(alloc: Global) -> Result<Levels<N, C>, AllocError> {
    let mut levels = Levels::Out(PhantomData);
    for _ in 0..MAX_DEPTH {
        levels = Levels::More(Box::new(alloc, levels)?);
    }
    Ok(levels)
}

impl<N, C: Change<N>> Mends<N> for Levels<N, C> {
    ghost mended = { same_levels C.changed };

    #[cycle(mend)]
    fn expr(
        &self,
        alloc: Global,
        link: &mut ExprBox<N>,
        place: Place,
        usage: Usage,
    ) -> Result<(), Stop> {
        match self {
            Levels::More(fewer) => change_expr::<N, C, Levels<N, C>>(
                fewer, alloc, link, place, usage,
            ),
            Levels::Out(_) => Err(Stop::TooDeep),
        }
    }

    #[cycle(mend)]
    fn pat(
        &self,
        alloc: Global,
        link: &mut PatBox<N>,
        place: Place,
        usage: Usage,
    ) -> Result<(), Stop> {
        match self {
            Levels::More(fewer) => change_pat::<N, C, Levels<N, C>>(
                fewer, alloc, link, place, usage,
            ),
            Levels::Out(_) => Err(Stop::TooDeep),
        }
    }

    #[cycle(mend)]
    fn tpl(&self, alloc: Global, link: &mut TplBox<N>, place: Place) -> Result<(), Stop> {
        match self {
            Levels::More(fewer) => change_tpl::<N, C, Levels<N, C>>(fewer, alloc, link, place),
            Levels::Out(_) => Err(Stop::TooDeep),
        }
    }

    #[cycle(mend)]
    fn prop_name(
        &self,
        alloc: Global,
        link: &mut PropNameBox<N>,
        place: Place,
    ) -> Result<(), Stop> {
        match self {
            Levels::More(fewer) => change_prop_name::<N, C, Levels<N, C>>(
                fewer, alloc, link, place,
            ),
            Levels::Out(_) => Err(Stop::TooDeep),
        }
    }

    #[cycle(mend)]
    fn member_expr(
        &self,
        alloc: Global,
        link: &mut MemberExprBox<N>,
        place: Place,
        usage: Usage,
    ) -> Result<(), Stop> {
        match self {
            Levels::More(fewer) => change_member_expr::<N, C, Levels<N, C>>(
                fewer, alloc, link, place, usage,
            ),
            Levels::Out(_) => Err(Stop::TooDeep),
        }
    }

    #[cycle(mend)]
    fn opt_call(
        &self,
        alloc: Global,
        link: &mut OptCallBox<N>,
        place: Place,
        usage: Usage,
    ) -> Result<(), Stop> {
        match self {
            Levels::More(fewer) => change_opt_call::<N, C, Levels<N, C>>(
                fewer, alloc, link, place, usage,
            ),
            Levels::Out(_) => Err(Stop::TooDeep),
        }
    }

    #[cycle(mend)]
    fn assign_target(
        &self,
        alloc: Global,
        link: &mut AssignTargetBox<N>,
        place: Place,
        usage: Usage,
    ) -> Result<(), Stop> {
        match self {
            Levels::More(fewer) => change_assign_target::<N, C, Levels<N, C>>(
                fewer, alloc, link, place, usage,
            ),
            Levels::Out(_) => Err(Stop::TooDeep),
        }
    }

    #[cycle(mend)]
    fn stmt(&self, alloc: Global, link: &mut StmtBox<N>, place: Place) -> Result<(), Stop> {
        match self {
            Levels::More(fewer) => change_stmt::<N, C, Levels<N, C>>(fewer, alloc, link, place),
            Levels::Out(_) => Err(Stop::TooDeep),
        }
    }

    #[cycle(mend)]
    fn function(&self, alloc: Global, link: &mut FunctionBox<N>, place: Place) -> Result<(), Stop> {
        match self {
            Levels::More(fewer) => change_function::<N, C, Levels<N, C>>(fewer, alloc, link, place),
            Levels::Out(_) => Err(Stop::TooDeep),
        }
    }

    #[cycle(mend)]
    fn class(&self, alloc: Global, link: &mut ClassBox<N>, place: Place) -> Result<(), Stop> {
        match self {
            Levels::More(fewer) => change_class::<N, C, Levels<N, C>>(fewer, alloc, link, place),
            Levels::Out(_) => Err(Stop::TooDeep),
        }
    }

    #[cycle(mend)]
    fn block_stmt(
        &self,
        alloc: Global,
        link: &mut BlockStmtBox<N>,
        place: Place,
    ) -> Result<(), Stop> {
        match self {
            Levels::More(fewer) => change_block_stmt::<N, C, Levels<N, C>>(
                fewer, alloc, link, place,
            ),
            Levels::Out(_) => Err(Stop::TooDeep),
        }
    }

    #[cycle(mend)]
    fn decl(&self, alloc: Global, link: &mut DeclBox<N>, place: Place) -> Result<(), Stop> {
        match self {
            Levels::More(fewer) => change_decl::<N, C, Levels<N, C>>(fewer, alloc, link, place),
            Levels::Out(_) => Err(Stop::TooDeep),
        }
    }

    #[cycle(mend)]
    fn module_decl(
        &self,
        alloc: Global,
        link: &mut ModuleDeclBox<N>,
        place: Place,
    ) -> Result<(), Stop> {
        match self {
            Levels::More(fewer) => change_module_decl::<N, C, Levels<N, C>>(
                fewer, alloc, link, place,
            ),
            Levels::Out(_) => Err(Stop::TooDeep),
        }
    }

    #[cycle(mend)]
    fn var_decl(&self, alloc: Global, link: &mut VarDeclBox<N>, place: Place) -> Result<(), Stop> {
        match self {
            Levels::More(fewer) => change_var_decl::<N, C, Levels<N, C>>(fewer, alloc, link, place),
            Levels::Out(_) => Err(Stop::TooDeep),
        }
    }

    #[cycle(mend)]
    fn class_member(
        &self,
        alloc: Global,
        link: &mut ClassMemberBox<N>,
        place: Place,
    ) -> Result<(), Stop> {
        match self {
            Levels::More(fewer) => change_class_member::<N, C, Levels<N, C>>(
                fewer, alloc, link, place,
            ),
            Levels::Out(_) => Err(Stop::TooDeep),
        }
    }

    #[cycle(mend)]
    fn jsx_element(
        &self,
        alloc: Global,
        link: &mut JSXElementBox<N>,
        place: Place,
    ) -> Result<(), Stop> {
        match self {
            Levels::More(fewer) => change_jsx_element::<N, C, Levels<N, C>>(
                fewer, alloc, link, place,
            ),
            Levels::Out(_) => Err(Stop::TooDeep),
        }
    }

    #[cycle(mend)]
    fn jsx_fragment(
        &self,
        alloc: Global,
        link: &mut JSXFragmentBox<N>,
        place: Place,
    ) -> Result<(), Stop> {
        match self {
            Levels::More(fewer) => change_jsx_fragment::<N, C, Levels<N, C>>(
                fewer, alloc, link, place,
            ),
            Levels::Out(_) => Err(Stop::TooDeep),
        }
    }
}
