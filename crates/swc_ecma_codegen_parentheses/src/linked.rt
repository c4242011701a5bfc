//! What links hold that is changed in no way of its own. Each sort has a function, since what calls
//! `mend_linked` itself names how all types of the tree are dropped, which takes the prover half a
//! minute.

ghost use Rattle.std.specs.Option.{option_and_then};
ghost use Rattle.std.specs.Prelude.{IfOk};
ghost use Rattle.swc_ecma_codegen_tree.specs.LinkTargets.{assign_target_in, block_stmt_in, class_in, class_member_in, decl_in, function_in, jsx_element_in, jsx_fragment_in, module_decl_in, opt_call_in, pat_in, prop_name_in, tpl_in, var_decl_in};
ghost use Rattle.swc_ecma_codegen_parentheses.specs.Lent.{Lent};
ghost use Rattle.swc_ecma_codegen_parentheses.specs.Lists.{where_found};
ghost use Rattle.swc_ecma_codegen_parentheses.specs.SameClasses.{same_class, same_class_member};
ghost use Rattle.swc_ecma_codegen_parentheses.specs.SameDecls.{same_decl, same_function, same_var_decl};
ghost use Rattle.swc_ecma_codegen_parentheses.specs.SameExprs.{same_member_expr, same_opt_call, same_tpl};
ghost use Rattle.swc_ecma_codegen_parentheses.specs.SameJsx.{same_jsx_element, same_jsx_fragment};
ghost use Rattle.swc_ecma_codegen_parentheses.specs.SameModules.{same_module_decl};
ghost use Rattle.swc_ecma_codegen_parentheses.specs.SameObjects.{same_prop_name};
ghost use Rattle.swc_ecma_codegen_parentheses.specs.SamePats.{same_assign_target, same_pat};
ghost use Rattle.swc_ecma_codegen_parentheses.specs.SameStmts.{same_block_stmt};

use crate::lends::Lends;
use crate::mends::{Mend, Mends, Stop};
use crate::places::Place;
use std::alloc::Global;
use swc_ecma_codegen_tree::{
    AssignTargetBox, BlockStmtBox, ClassBox, ClassMemberBox, DeclBox, ExprPart, FunctionBox, Holds,
    JSXElementBox, JSXFragmentBox, JSXPart, Link, LinkSortMut, MemberExpr, MemberExprBox,
    ModuleDeclBox, OptCallBox, PatBox, PropNameBox, StmtPart, ToAssignTarget, ToBlockStmt, ToClass,
    ToClassMember, ToDecl, ToFunction, ToJSXElement, ToJSXFragment, ToMemberExpr, ToModuleDecl,
    ToOptCall, ToPat, ToPropName, ToTpl, ToVarDecl, TplBox, VarDeclBox,
};

/// Goes into the node that a link holds, and says whether it holds one of its sort.
pub(crate) fn mend_linked<K: LinkSortMut<N>, N: Holds<K::Part>, M: Mends<N>>(
    mender: &M,
    alloc: Global,
    link: &mut Link<K, N>,
    place: Place,
) -> Result<bool, Stop>
where
    K::Node: Mend<N, M>,
    ensures { IfOk result (λ found. where_found found (Lent
        (λ n. K.linked (N.node_in n)) (K.Node.same (M.mended mender.now))) link.old link.new) }
{
    match link.get_mut() {
        Some(node) => {
            node.mend(mender, alloc, place)?;
            Ok(true)
        }
        None => Ok(false),
    }
}

/// Goes into the pattern that a link holds.
pub(crate) fn mend_linked_pat<N: Lends, M: Mends<N>>(
    mender: &M,
    alloc: Global,
    link: &mut PatBox<N>,
    place: Place,
) -> Result<bool, Stop>
    ensures { IfOk result (λ found. where_found found (Lent
        (λ n. option_and_then pat_in (⟦<N as Holds<ExprPart<N>>>⟧.node_in n))
        (same_pat (M.mended mender.now))) link.old link.new) }
{
    mend_linked::<ToPat, N, M>(mender, alloc, link, place)
}

/// Goes into the target that a link holds.
pub(crate) fn mend_linked_assign_target<N: Lends, M: Mends<N>>(
    mender: &M,
    alloc: Global,
    link: &mut AssignTargetBox<N>,
    place: Place,
) -> Result<bool, Stop>
    ensures { IfOk result (λ found. where_found found (Lent
        (λ n. option_and_then assign_target_in (⟦<N as Holds<ExprPart<N>>>⟧.node_in n))
        (same_assign_target (M.mended mender.now))) link.old link.new) }
{
    mend_linked::<ToAssignTarget, N, M>(mender, alloc, link, place)
}

/// Goes into the template that a link holds.
pub(crate) fn mend_linked_tpl<N: Lends, M: Mends<N>>(
    mender: &M,
    alloc: Global,
    link: &mut TplBox<N>,
    place: Place,
) -> Result<bool, Stop>
    ensures { IfOk result (λ found. where_found found (Lent
        (λ n. option_and_then tpl_in (⟦<N as Holds<ExprPart<N>>>⟧.node_in n))
        (same_tpl (M.mended mender.now))) link.old link.new) }
{
    mend_linked::<ToTpl, N, M>(mender, alloc, link, place)
}

/// Goes into the property's name that a link holds.
pub(crate) fn mend_linked_prop_name<N: Lends, M: Mends<N>>(
    mender: &M,
    alloc: Global,
    link: &mut PropNameBox<N>,
    place: Place,
) -> Result<bool, Stop>
    ensures { IfOk result (λ found. where_found found (Lent
        (λ n. option_and_then prop_name_in (⟦<N as Holds<ExprPart<N>>>⟧.node_in n))
        (same_prop_name (M.mended mender.now))) link.old link.new) }
{
    mend_linked::<ToPropName, N, M>(mender, alloc, link, place)
}

/// Goes into the member expression that a link holds.
pub(crate) fn mend_linked_member_expr<N: Lends, M: Mends<N>>(
    mender: &M,
    alloc: Global,
    link: &mut MemberExprBox<N>,
    place: Place,
) -> Result<bool, Stop>
    ensures { IfOk result (λ found. where_found found (Lent
        (⟦<N as Holds<MemberExpr<N>>>⟧.node_in)
        (same_member_expr (M.mended mender.now))) link.old link.new) }
{
    mend_linked::<ToMemberExpr, N, M>(mender, alloc, link, place)
}

/// Goes into the call in a chain that a link holds.
pub(crate) fn mend_linked_opt_call<N: Lends, M: Mends<N>>(
    mender: &M,
    alloc: Global,
    link: &mut OptCallBox<N>,
    place: Place,
) -> Result<bool, Stop>
    ensures { IfOk result (λ found. where_found found (Lent
        (λ n. option_and_then opt_call_in (⟦<N as Holds<ExprPart<N>>>⟧.node_in n))
        (same_opt_call (M.mended mender.now))) link.old link.new) }
{
    mend_linked::<ToOptCall, N, M>(mender, alloc, link, place)
}

/// Goes into the function that a link holds.
pub(crate) fn mend_linked_function<N: Lends, M: Mends<N>>(
    mender: &M,
    alloc: Global,
    link: &mut FunctionBox<N>,
    place: Place,
) -> Result<bool, Stop>
    ensures { IfOk result (λ found. where_found found (Lent
        (λ n. option_and_then function_in (⟦<N as Holds<StmtPart<N>>>⟧.node_in n))
        (same_function (M.mended mender.now))) link.old link.new) }
{
    mend_linked::<ToFunction, N, M>(mender, alloc, link, place)
}

/// Goes into the class that a link holds.
pub(crate) fn mend_linked_class<N: Lends, M: Mends<N>>(
    mender: &M,
    alloc: Global,
    link: &mut ClassBox<N>,
    place: Place,
) -> Result<bool, Stop>
    ensures { IfOk result (λ found. where_found found (Lent
        (λ n. option_and_then class_in (⟦<N as Holds<StmtPart<N>>>⟧.node_in n))
        (same_class (M.mended mender.now))) link.old link.new) }
{
    mend_linked::<ToClass, N, M>(mender, alloc, link, place)
}

/// Goes into the block that a link holds.
pub(crate) fn mend_linked_block_stmt<N: Lends, M: Mends<N>>(
    mender: &M,
    alloc: Global,
    link: &mut BlockStmtBox<N>,
    place: Place,
) -> Result<bool, Stop>
    ensures { IfOk result (λ found. where_found found (Lent
        (λ n. option_and_then block_stmt_in (⟦<N as Holds<StmtPart<N>>>⟧.node_in n))
        (same_block_stmt (M.mended mender.now))) link.old link.new) }
{
    mend_linked::<ToBlockStmt, N, M>(mender, alloc, link, place)
}

/// Goes into the declaration that a link holds.
pub(crate) fn mend_linked_decl<N: Lends, M: Mends<N>>(
    mender: &M,
    alloc: Global,
    link: &mut DeclBox<N>,
    place: Place,
) -> Result<bool, Stop>
    ensures { IfOk result (λ found. where_found found (Lent
        (λ n. option_and_then decl_in (⟦<N as Holds<StmtPart<N>>>⟧.node_in n))
        (same_decl (M.mended mender.now))) link.old link.new) }
{
    mend_linked::<ToDecl, N, M>(mender, alloc, link, place)
}

/// Goes into the import or export that a link holds.
pub(crate) fn mend_linked_module_decl<N: Lends, M: Mends<N>>(
    mender: &M,
    alloc: Global,
    link: &mut ModuleDeclBox<N>,
    place: Place,
) -> Result<bool, Stop>
    ensures { IfOk result (λ found. where_found found (Lent
        (λ n. option_and_then module_decl_in (⟦<N as Holds<StmtPart<N>>>⟧.node_in n))
        (same_module_decl (M.mended mender.now))) link.old link.new) }
{
    mend_linked::<ToModuleDecl, N, M>(mender, alloc, link, place)
}

/// Goes into the declaration of variables that a link holds.
pub(crate) fn mend_linked_var_decl<N: Lends, M: Mends<N>>(
    mender: &M,
    alloc: Global,
    link: &mut VarDeclBox<N>,
    place: Place,
) -> Result<bool, Stop>
    ensures { IfOk result (λ found. where_found found (Lent
        (λ n. option_and_then var_decl_in (⟦<N as Holds<StmtPart<N>>>⟧.node_in n))
        (same_var_decl (M.mended mender.now))) link.old link.new) }
{
    mend_linked::<ToVarDecl, N, M>(mender, alloc, link, place)
}

/// Goes into the member of a class that a link holds.
pub(crate) fn mend_linked_class_member<N: Lends, M: Mends<N>>(
    mender: &M,
    alloc: Global,
    link: &mut ClassMemberBox<N>,
    place: Place,
) -> Result<bool, Stop>
    ensures { IfOk result (λ found. where_found found (Lent
        (λ n. option_and_then class_member_in (⟦<N as Holds<StmtPart<N>>>⟧.node_in n))
        (same_class_member (M.mended mender.now))) link.old link.new) }
{
    mend_linked::<ToClassMember, N, M>(mender, alloc, link, place)
}

/// Goes into the element of JSX that a link holds.
pub(crate) fn mend_linked_jsx_element<N: Lends, M: Mends<N>>(
    mender: &M,
    alloc: Global,
    link: &mut JSXElementBox<N>,
    place: Place,
) -> Result<bool, Stop>
    ensures { IfOk result (λ found. where_found found (Lent
        (λ n. option_and_then jsx_element_in (⟦<N as Holds<JSXPart<N>>>⟧.node_in n))
        (same_jsx_element (M.mended mender.now))) link.old link.new) }
{
    mend_linked::<ToJSXElement, N, M>(mender, alloc, link, place)
}

/// Goes into the fragment of JSX that a link holds.
pub(crate) fn mend_linked_jsx_fragment<N: Lends, M: Mends<N>>(
    mender: &M,
    alloc: Global,
    link: &mut JSXFragmentBox<N>,
    place: Place,
) -> Result<bool, Stop>
    ensures { IfOk result (λ found. where_found found (Lent
        (λ n. option_and_then jsx_fragment_in (⟦<N as Holds<JSXPart<N>>>⟧.node_in n))
        (same_jsx_fragment (M.mended mender.now))) link.old link.new) }
{
    mend_linked::<ToJSXFragment, N, M>(mender, alloc, link, place)
}
