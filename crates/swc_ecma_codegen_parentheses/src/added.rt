//! Parentheses and blocks are put in.

ghost use Rattle.swc_ecma_codegen_parentheses.specs.Whole.{AddedHeld, SameHeld, SamePart};

use crate::changes::Change;
use crate::enclosed::{mend_expr, mend_pat, mend_stmt};
use crate::lends::Lends;
use crate::linked::{
    mend_linked_assign_target, mend_linked_block_stmt, mend_linked_class, mend_linked_class_member,
    mend_linked_decl, mend_linked_function, mend_linked_jsx_element, mend_linked_jsx_fragment,
    mend_linked_member_expr, mend_linked_module_decl, mend_linked_opt_call, mend_linked_prop_name,
    mend_linked_tpl, mend_linked_var_decl,
};
use crate::mends::{Mends, Stop, Usage};
use crate::operands::Context;
use crate::places::Place;
use crate::within::Within;
use std::alloc::Global;
use swc_ecma_codegen_tree::{
    AssignTargetBox, BlockStmtBox, ClassBox, ClassMemberBox, DeclBox, Expr, ExprBox, ExprPart,
    FunctionBox, Holds, JSXElementBox, JSXFragmentBox, JSXPart, MemberExpr, MemberExprBox,
    ModuleDeclBox, OptCallBox, PatBox, PropNameBox, Stmt, StmtBox, StmtPart, TplBox, VarDeclBox,
};

/// Parentheses are put round an expression or a name where they are missing, and a block round an
/// `if`.
pub(crate) enum Added {}

impl<N: Lends> Change<N> for Added {
    ghost changed = { SameHeld
        (AddedHeld N.answers (⟦<N as Holds<Expr<N>>>⟧.node_in) (⟦<N as Holds<ExprPart<N>>>⟧.node_in)
        (⟦<N as Holds<StmtPart<N>>>⟧.node_in) (⟦<N as Holds<Stmt<N>>>⟧.node_in) N.place)
        (SamePart (⟦<N as Holds<ExprPart<N>>>⟧.node_in) (⟦<N as Holds<StmtPart<N>>>⟧.node_in)
        (⟦<N as Holds<MemberExpr<N>>>⟧.node_in) (⟦<N as Holds<JSXPart<N>>>⟧.node_in)) };

    fn expr<M: Mends<N>>(
        mender: &M,
        alloc: Global,
        link: &mut ExprBox<N>,
        place: Place,
        usage: Usage,
    ) -> Result<(), Stop> {
        match link.get_mut() {
            Some(node) => mend_expr::<N, M>(mender, alloc, node, place, usage),
            None => Ok(()),
        }
    }

    fn pat<M: Mends<N>>(
        mender: &M,
        alloc: Global,
        link: &mut PatBox<N>,
        place: Place,
        usage: Usage,
    ) -> Result<(), Stop> {
        match link.get_mut() {
            Some(node) => mend_pat::<N, M>(mender, alloc, node, place, usage),
            None => Ok(()),
        }
    }

    fn tpl<M: Mends<N>>(
        mender: &M,
        alloc: Global,
        link: &mut TplBox<N>,
        place: Place,
    ) -> Result<(), Stop> {
        mend_linked_tpl::<N, M>(mender, alloc, link, place)?;
        Ok(())
    }

    fn prop_name<M: Mends<N>>(
        mender: &M,
        alloc: Global,
        link: &mut PropNameBox<N>,
        place: Place,
    ) -> Result<(), Stop> {
        mend_linked_prop_name::<N, M>(mender, alloc, link, place)?;
        Ok(())
    }

    fn member_expr<M: Mends<N>>(
        mender: &M,
        alloc: Global,
        link: &mut MemberExprBox<N>,
        place: Place,
        usage: Usage,
    ) -> Result<(), Stop> {
        let context = usage.context(place);
        let within = Within { mender, context };
        mend_linked_member_expr::<N, Within<M>>(&within, alloc, link, place)?;
        Ok(())
    }

    fn opt_call<M: Mends<N>>(
        mender: &M,
        alloc: Global,
        link: &mut OptCallBox<N>,
        place: Place,
        usage: Usage,
    ) -> Result<(), Stop> {
        let context = usage.context(place);
        let within = Within { mender, context };
        mend_linked_opt_call::<N, Within<M>>(&within, alloc, link, place)?;
        Ok(())
    }

    fn assign_target<M: Mends<N>>(
        mender: &M,
        alloc: Global,
        link: &mut AssignTargetBox<N>,
        place: Place,
        usage: Usage,
    ) -> Result<(), Stop> {
        let context = usage.context(place);
        let within = Within { mender, context };
        mend_linked_assign_target::<N, Within<M>>(&within, alloc, link, place)?;
        Ok(())
    }

    fn stmt<M: Mends<N>>(
        mender: &M,
        alloc: Global,
        link: &mut StmtBox<N>,
        place: Place,
    ) -> Result<(), Stop> {
        match link.get_mut() {
            Some(node) => mend_stmt::<N, M>(mender, alloc, node, place),
            None => Ok(()),
        }
    }

    fn function<M: Mends<N>>(
        mender: &M,
        alloc: Global,
        link: &mut FunctionBox<N>,
        place: Place,
    ) -> Result<(), Stop> {
        mend_linked_function::<N, M>(mender, alloc, link, place)?;
        Ok(())
    }

    fn class<M: Mends<N>>(
        mender: &M,
        alloc: Global,
        link: &mut ClassBox<N>,
        place: Place,
    ) -> Result<(), Stop> {
        mend_linked_class::<N, M>(mender, alloc, link, place)?;
        Ok(())
    }

    fn block_stmt<M: Mends<N>>(
        mender: &M,
        alloc: Global,
        link: &mut BlockStmtBox<N>,
        place: Place,
    ) -> Result<(), Stop> {
        mend_linked_block_stmt::<N, M>(mender, alloc, link, place)?;
        Ok(())
    }

    fn decl<M: Mends<N>>(
        mender: &M,
        alloc: Global,
        link: &mut DeclBox<N>,
        place: Place,
    ) -> Result<(), Stop> {
        mend_linked_decl::<N, M>(mender, alloc, link, place)?;
        Ok(())
    }

    fn module_decl<M: Mends<N>>(
        mender: &M,
        alloc: Global,
        link: &mut ModuleDeclBox<N>,
        place: Place,
    ) -> Result<(), Stop> {
        mend_linked_module_decl::<N, M>(mender, alloc, link, place)?;
        Ok(())
    }

    fn var_decl<M: Mends<N>>(
        mender: &M,
        alloc: Global,
        link: &mut VarDeclBox<N>,
        place: Place,
    ) -> Result<(), Stop> {
        let context = Context::declared_in_head();
        let within = Within { mender, context };
        mend_linked_var_decl::<N, Within<M>>(&within, alloc, link, place)?;
        Ok(())
    }

    fn class_member<M: Mends<N>>(
        mender: &M,
        alloc: Global,
        link: &mut ClassMemberBox<N>,
        place: Place,
    ) -> Result<(), Stop> {
        mend_linked_class_member::<N, M>(mender, alloc, link, place)?;
        Ok(())
    }

    fn jsx_element<M: Mends<N>>(
        mender: &M,
        alloc: Global,
        link: &mut JSXElementBox<N>,
        place: Place,
    ) -> Result<(), Stop> {
        mend_linked_jsx_element::<N, M>(mender, alloc, link, place)?;
        Ok(())
    }

    fn jsx_fragment<M: Mends<N>>(
        mender: &M,
        alloc: Global,
        link: &mut JSXFragmentBox<N>,
        place: Place,
    ) -> Result<(), Stop> {
        mend_linked_jsx_fragment::<N, M>(mender, alloc, link, place)?;
        Ok(())
    }
}
