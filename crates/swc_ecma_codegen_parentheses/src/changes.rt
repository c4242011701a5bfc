//! What is changed where a link holds it: parentheses are put in there.

ghost use Rattle.std.specs.Result.{OnOk};
ghost use Rattle.swc_ecma_codegen_parentheses.specs.declared.mends.Usage.{Usage};
ghost use Rattle.swc_ecma_codegen_parentheses.specs.Lists.{linked, linked_as};

use crate::mends::{Mends, Stop, Usage};
use crate::places::Place;
use std::alloc::Global;
use swc_ecma_codegen_tree::{
    AssignTargetBox, BlockStmtBox, ClassBox, ClassMemberBox, DeclBox, ExprBox, FunctionBox,
    JSXElementBox, JSXFragmentBox, MemberExprBox, ModuleDeclBox, OptCallBox, PatBox, PropNameBox,
    StmtBox, TplBox, VarDeclBox,
};

/// What is changed where a link holds it.
pub(crate) trait Change<N>: Sized {
    /// What such a link held, and what it holds, by what the links in it held and hold.
    ghost changed: { (Usage → N → N → Type 0) → Usage → N → N → Type 0 };

    fn expr<M: Mends<N>>(
        mender: &M,
        alloc: Global,
        link: &mut ExprBox<N>,
        place: Place,
        usage: Usage,
    ) -> Result<(), Stop>
        ensures { OnOk result (linked_as usage (changed (M.mended mender.now)) link.old link.new) };

    fn pat<M: Mends<N>>(
        mender: &M,
        alloc: Global,
        link: &mut PatBox<N>,
        place: Place,
        usage: Usage,
    ) -> Result<(), Stop>
        ensures { OnOk result (linked_as usage (changed (M.mended mender.now)) link.old link.new) };

    fn tpl<M: Mends<N>>(
        mender: &M,
        alloc: Global,
        link: &mut TplBox<N>,
        place: Place,
    ) -> Result<(), Stop>
        ensures { OnOk result (linked (changed (M.mended mender.now)) link.old link.new) };

    fn prop_name<M: Mends<N>>(
        mender: &M,
        alloc: Global,
        link: &mut PropNameBox<N>,
        place: Place,
    ) -> Result<(), Stop>
        ensures { OnOk result (linked (changed (M.mended mender.now)) link.old link.new) };

    fn member_expr<M: Mends<N>>(
        mender: &M,
        alloc: Global,
        link: &mut MemberExprBox<N>,
        place: Place,
        usage: Usage,
    ) -> Result<(), Stop>
        ensures { OnOk result (linked_as usage (changed (M.mended mender.now)) link.old link.new) };

    fn opt_call<M: Mends<N>>(
        mender: &M,
        alloc: Global,
        link: &mut OptCallBox<N>,
        place: Place,
        usage: Usage,
    ) -> Result<(), Stop>
        ensures { OnOk result (linked_as usage (changed (M.mended mender.now)) link.old link.new) };

    fn assign_target<M: Mends<N>>(
        mender: &M,
        alloc: Global,
        link: &mut AssignTargetBox<N>,
        place: Place,
        usage: Usage,
    ) -> Result<(), Stop>
        ensures { OnOk result (linked_as usage (changed (M.mended mender.now)) link.old link.new) };

    fn stmt<M: Mends<N>>(
        mender: &M,
        alloc: Global,
        link: &mut StmtBox<N>,
        place: Place,
    ) -> Result<(), Stop>
        ensures { OnOk result (linked (changed (M.mended mender.now)) link.old link.new) };

    fn function<M: Mends<N>>(
        mender: &M,
        alloc: Global,
        link: &mut FunctionBox<N>,
        place: Place,
    ) -> Result<(), Stop>
        ensures { OnOk result (linked (changed (M.mended mender.now)) link.old link.new) };

    fn class<M: Mends<N>>(
        mender: &M,
        alloc: Global,
        link: &mut ClassBox<N>,
        place: Place,
    ) -> Result<(), Stop>
        ensures { OnOk result (linked (changed (M.mended mender.now)) link.old link.new) };

    fn block_stmt<M: Mends<N>>(
        mender: &M,
        alloc: Global,
        link: &mut BlockStmtBox<N>,
        place: Place,
    ) -> Result<(), Stop>
        ensures { OnOk result (linked (changed (M.mended mender.now)) link.old link.new) };

    fn decl<M: Mends<N>>(
        mender: &M,
        alloc: Global,
        link: &mut DeclBox<N>,
        place: Place,
    ) -> Result<(), Stop>
        ensures { OnOk result (linked (changed (M.mended mender.now)) link.old link.new) };

    fn module_decl<M: Mends<N>>(
        mender: &M,
        alloc: Global,
        link: &mut ModuleDeclBox<N>,
        place: Place,
    ) -> Result<(), Stop>
        ensures { OnOk result (linked (changed (M.mended mender.now)) link.old link.new) };

    fn var_decl<M: Mends<N>>(
        mender: &M,
        alloc: Global,
        link: &mut VarDeclBox<N>,
        place: Place,
    ) -> Result<(), Stop>
        ensures { OnOk result (linked (changed (M.mended mender.now)) link.old link.new) };

    fn class_member<M: Mends<N>>(
        mender: &M,
        alloc: Global,
        link: &mut ClassMemberBox<N>,
        place: Place,
    ) -> Result<(), Stop>
        ensures { OnOk result (linked (changed (M.mended mender.now)) link.old link.new) };

    fn jsx_element<M: Mends<N>>(
        mender: &M,
        alloc: Global,
        link: &mut JSXElementBox<N>,
        place: Place,
    ) -> Result<(), Stop>
        ensures { OnOk result (linked (changed (M.mended mender.now)) link.old link.new) };

    fn jsx_fragment<M: Mends<N>>(
        mender: &M,
        alloc: Global,
        link: &mut JSXFragmentBox<N>,
        place: Place,
    ) -> Result<(), Stop>
        ensures { OnOk result (linked (changed (M.mended mender.now)) link.old link.new) };
}

/// The change of the expression that a link holds. A cycle of calls may not call a bound's function
/// itself.
pub(crate) fn change_expr<N, C: Change<N>, M: Mends<N>>(
    mender: &M,
    alloc: Global,
    link: &mut ExprBox<N>,
    place: Place,
    usage: Usage,
) -> Result<(), Stop>
    ensures { OnOk result (linked_as usage (C.changed (M.mended mender.now)) link.old link.new) }
{
    C::expr::<M>(mender, alloc, link, place, usage)
}

/// The change of the pattern that a link holds.
pub(crate) fn change_pat<N, C: Change<N>, M: Mends<N>>(
    mender: &M,
    alloc: Global,
    link: &mut PatBox<N>,
    place: Place,
    usage: Usage,
) -> Result<(), Stop>
    ensures { OnOk result (linked_as usage (C.changed (M.mended mender.now)) link.old link.new) }
{
    C::pat::<M>(mender, alloc, link, place, usage)
}

/// The change of the template that a link holds.
pub(crate) fn change_tpl<N, C: Change<N>, M: Mends<N>>(
    mender: &M,
    alloc: Global,
    link: &mut TplBox<N>,
    place: Place,
) -> Result<(), Stop>
    ensures { OnOk result (linked (C.changed (M.mended mender.now)) link.old link.new) }
{
    C::tpl::<M>(mender, alloc, link, place)
}

/// The change of the property's name that a link holds.
pub(crate) fn change_prop_name<N, C: Change<N>, M: Mends<N>>(
    mender: &M,
    alloc: Global,
    link: &mut PropNameBox<N>,
    place: Place,
) -> Result<(), Stop>
    ensures { OnOk result (linked (C.changed (M.mended mender.now)) link.old link.new) }
{
    C::prop_name::<M>(mender, alloc, link, place)
}

/// The change of the member expression that a link holds.
pub(crate) fn change_member_expr<N, C: Change<N>, M: Mends<N>>(
    mender: &M,
    alloc: Global,
    link: &mut MemberExprBox<N>,
    place: Place,
    usage: Usage,
) -> Result<(), Stop>
    ensures { OnOk result (linked_as usage (C.changed (M.mended mender.now)) link.old link.new) }
{
    C::member_expr::<M>(mender, alloc, link, place, usage)
}

/// The change of the call in a chain that a link holds.
pub(crate) fn change_opt_call<N, C: Change<N>, M: Mends<N>>(
    mender: &M,
    alloc: Global,
    link: &mut OptCallBox<N>,
    place: Place,
    usage: Usage,
) -> Result<(), Stop>
    ensures { OnOk result (linked_as usage (C.changed (M.mended mender.now)) link.old link.new) }
{
    C::opt_call::<M>(mender, alloc, link, place, usage)
}

/// The change of the target that a link holds.
pub(crate) fn change_assign_target<N, C: Change<N>, M: Mends<N>>(
    mender: &M,
    alloc: Global,
    link: &mut AssignTargetBox<N>,
    place: Place,
    usage: Usage,
) -> Result<(), Stop>
    ensures { OnOk result (linked_as usage (C.changed (M.mended mender.now)) link.old link.new) }
{
    C::assign_target::<M>(mender, alloc, link, place, usage)
}

/// The change of the statement that a link holds.
pub(crate) fn change_stmt<N, C: Change<N>, M: Mends<N>>(
    mender: &M,
    alloc: Global,
    link: &mut StmtBox<N>,
    place: Place,
) -> Result<(), Stop>
    ensures { OnOk result (linked (C.changed (M.mended mender.now)) link.old link.new) }
{
    C::stmt::<M>(mender, alloc, link, place)
}

/// The change of the function that a link holds.
pub(crate) fn change_function<N, C: Change<N>, M: Mends<N>>(
    mender: &M,
    alloc: Global,
    link: &mut FunctionBox<N>,
    place: Place,
) -> Result<(), Stop>
    ensures { OnOk result (linked (C.changed (M.mended mender.now)) link.old link.new) }
{
    C::function::<M>(mender, alloc, link, place)
}

/// The change of the class that a link holds.
pub(crate) fn change_class<N, C: Change<N>, M: Mends<N>>(
    mender: &M,
    alloc: Global,
    link: &mut ClassBox<N>,
    place: Place,
) -> Result<(), Stop>
    ensures { OnOk result (linked (C.changed (M.mended mender.now)) link.old link.new) }
{
    C::class::<M>(mender, alloc, link, place)
}

/// The change of the block that a link holds.
pub(crate) fn change_block_stmt<N, C: Change<N>, M: Mends<N>>(
    mender: &M,
    alloc: Global,
    link: &mut BlockStmtBox<N>,
    place: Place,
) -> Result<(), Stop>
    ensures { OnOk result (linked (C.changed (M.mended mender.now)) link.old link.new) }
{
    C::block_stmt::<M>(mender, alloc, link, place)
}

/// The change of the declaration that a link holds.
pub(crate) fn change_decl<N, C: Change<N>, M: Mends<N>>(
    mender: &M,
    alloc: Global,
    link: &mut DeclBox<N>,
    place: Place,
) -> Result<(), Stop>
    ensures { OnOk result (linked (C.changed (M.mended mender.now)) link.old link.new) }
{
    C::decl::<M>(mender, alloc, link, place)
}

/// The change of the import or export that a link holds.
pub(crate) fn change_module_decl<N, C: Change<N>, M: Mends<N>>(
    mender: &M,
    alloc: Global,
    link: &mut ModuleDeclBox<N>,
    place: Place,
) -> Result<(), Stop>
    ensures { OnOk result (linked (C.changed (M.mended mender.now)) link.old link.new) }
{
    C::module_decl::<M>(mender, alloc, link, place)
}

/// The change of the declaration of variables that a link holds.
pub(crate) fn change_var_decl<N, C: Change<N>, M: Mends<N>>(
    mender: &M,
    alloc: Global,
    link: &mut VarDeclBox<N>,
    place: Place,
) -> Result<(), Stop>
    ensures { OnOk result (linked (C.changed (M.mended mender.now)) link.old link.new) }
{
    C::var_decl::<M>(mender, alloc, link, place)
}

/// The change of the member of a class that a link holds.
pub(crate) fn change_class_member<N, C: Change<N>, M: Mends<N>>(
    mender: &M,
    alloc: Global,
    link: &mut ClassMemberBox<N>,
    place: Place,
) -> Result<(), Stop>
    ensures { OnOk result (linked (C.changed (M.mended mender.now)) link.old link.new) }
{
    C::class_member::<M>(mender, alloc, link, place)
}

/// The change of the element of JSX that a link holds.
pub(crate) fn change_jsx_element<N, C: Change<N>, M: Mends<N>>(
    mender: &M,
    alloc: Global,
    link: &mut JSXElementBox<N>,
    place: Place,
) -> Result<(), Stop>
    ensures { OnOk result (linked (C.changed (M.mended mender.now)) link.old link.new) }
{
    C::jsx_element::<M>(mender, alloc, link, place)
}

/// The change of the fragment of JSX that a link holds.
pub(crate) fn change_jsx_fragment<N, C: Change<N>, M: Mends<N>>(
    mender: &M,
    alloc: Global,
    link: &mut JSXFragmentBox<N>,
    place: Place,
) -> Result<(), Stop>
    ensures { OnOk result (linked (C.changed (M.mended mender.now)) link.old link.new) }
{
    C::jsx_fragment::<M>(mender, alloc, link, place)
}
