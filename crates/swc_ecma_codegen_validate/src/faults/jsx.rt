//! JSX.

ghost use Rattle.std.specs.Prelude.{◌≡◌, ◌||◌, false, not, IfOk, codes};
ghost use Rattle.std.specs.Option.{is_some};
ghost use Rattle.swc_ecma_codegen_grammar.specs.Phrases.{is_possible};
ghost use Rattle.swc_ecma_codegen_grammar.specs.JsxPhrases.{ends_in_text, tag_ident_name};
ghost use Rattle.swc_ecma_codegen_validate.specs.Rules.{findings, no_links, Finds, below, by_rule, Named};
ghost use Rattle.swc_ecma_codegen_validate.specs.JsxRules.{jsx_namespaced_name, jsx_member_expr, jsx_object, jsx_element_name, jsx_attr_name, jsx_text, jsx_expr, jsx_expr_container, jsx_spread_child, jsx_attr_value, jsx_attr, jsx_attr_or_spread, jsx_opening_element, jsx_closing_element, jsx_element_child, jsx_element, jsx_fragment, tag_rules};

use crate::faults::{FaultIn, FindsFault, Found, Step, broken_unless, in_turn, under, within};
use crate::forms::WellFormed;
use crate::jsx::{are_parted, ends_in_text, is_attr_lit, is_tag_ident, is_tag_ident_name};
use std::alloc::Global;
use swc_ecma_codegen_grammar::roles::Role;
use swc_ecma_codegen_tree::{
    Ident, IdentName, JSXAttr, JSXAttrName, JSXAttrOrSpread, JSXAttrValue, JSXClosingElement,
    JSXElement, JSXElementChild, JSXElementName, JSXExpr, JSXExprContainer, JSXFragment,
    JSXMemberExpr, JSXNamespacedName, JSXObject, JSXOpeningElement, JSXSpreadChild, JSXText,
};

impl FindsFault for JSXNamespacedName {
    ghost found = { λ n. findings no_links (jsx_namespaced_name n) };

    #[tactic(auto, unfolding(crate::specs::JsxRules::jsx_namespaced_name, crate::specs::Rules::findings))]
    fn fault(&self, alloc: Global) -> Found {
        in_turn! {
            tag_part_fault(alloc, "ns", &self.ns),
            tag_part_fault(alloc, "name", &self.name),
        }
    }
}

impl<N: FaultIn> FindsFault for JSXMemberExpr<N> {
    ghost found = { λ n. findings N.found_as (jsx_member_expr n) };

    #[tactic(auto, unfolding(crate::specs::JsxRules::jsx_member_expr, crate::specs::Rules::findings))]
    fn fault(&self, alloc: Global) -> Found {
        in_turn! {
            under(alloc, "obj", &self.obj),
            tag_part_fault(alloc, "prop", &self.prop),
        }
    }
}

impl<N: FaultIn> FindsFault for JSXObject<N> {
    ghost found = { λ n. findings N.found_as (jsx_object n) };

    #[tactic(auto, unfolding(crate::specs::JsxRules::jsx_object, crate::specs::Rules::findings))]
    fn fault(&self, alloc: Global) -> Found {
        match self {
            JSXObject::JSXMemberExpr(node) => node.fault(alloc),
            JSXObject::Ident(node) => tag_fault(alloc, node),
        }
    }
}

impl<N: FaultIn> FindsFault for JSXElementName<N> {
    ghost found = { λ n. findings N.found_as (jsx_element_name n) };

    #[tactic(auto, unfolding(crate::specs::JsxRules::jsx_element_name, crate::specs::Rules::findings))]
    fn fault(&self, alloc: Global) -> Found {
        match self {
            JSXElementName::Ident(node) => tag_fault(alloc, node),
            JSXElementName::JSXMemberExpr(node) => node.fault(alloc),
            JSXElementName::JSXNamespacedName(node) => node.fault(alloc),
        }
    }
}

impl FindsFault for JSXAttrName {
    ghost found = { λ n. findings no_links (jsx_attr_name n) };

    #[tactic(auto, unfolding(crate::specs::JsxRules::jsx_attr_name, crate::specs::Rules::findings))]
    fn fault(&self, alloc: Global) -> Found {
        match self {
            JSXAttrName::Ident(node) => broken_unless(
                alloc,
                is_tag_ident_name(node),
                "a name in a tag holds a character that no name there may",
            ),
            JSXAttrName::JSXNamespacedName(node) => node.fault(alloc),
        }
    }
}

impl FindsFault for JSXText {
    ghost found = { λ n. findings no_links (jsx_text n) };

    #[tactic(auto, unfolding(crate::specs::JsxRules::jsx_text, crate::specs::Rules::findings))]
    fn fault(&self, alloc: Global) -> Found {
        broken_unless(
            alloc,
            self.is_well_formed(),
            "a text of JSX holds a brace or an angle bracket",
        )
    }
}

impl<N: FaultIn> FindsFault for JSXExpr<N> {
    ghost found = { λ n. findings N.found_as (jsx_expr n) };

    #[tactic(auto, unfolding(crate::specs::JsxRules::jsx_expr, crate::specs::Rules::findings))]
    fn fault(&self, alloc: Global) -> Found {
        match self {
            JSXExpr::JSXEmptyExpr(_) => Ok(None),
            JSXExpr::Expr(node) => node.fault(alloc),
        }
    }
}

impl<N: FaultIn> FindsFault for JSXExprContainer<N> {
    ghost found = { λ n. findings N.found_as (jsx_expr_container n) };

    #[tactic(auto, unfolding(crate::specs::JsxRules::jsx_expr_container, crate::specs::Rules::findings))]
    fn fault(&self, alloc: Global) -> Found {
        within!(self, alloc; expr)
    }
}

impl<N: FaultIn> FindsFault for JSXSpreadChild<N> {
    ghost found = { λ n. findings N.found_as (jsx_spread_child n) };

    #[tactic(auto, unfolding(crate::specs::JsxRules::jsx_spread_child, crate::specs::Rules::findings))]
    fn fault(&self, alloc: Global) -> Found {
        within!(self, alloc; expr)
    }
}

impl<N: FaultIn> FindsFault for JSXAttrValue<N> {
    ghost found = { λ n. findings N.found_as (jsx_attr_value n) };

    #[tactic(auto, unfolding(crate::specs::JsxRules::jsx_attr_value, crate::specs::Rules::findings))]
    fn fault(&self, alloc: Global) -> Found {
        match self {
            JSXAttrValue::Lit(node) => broken_unless(
                alloc,
                is_attr_lit(node),
                "the value of an attribute is no string that JSX can spell",
            ),
            JSXAttrValue::JSXExprContainer(node) => node.fault(alloc),
            JSXAttrValue::JSXElement(node) => node.fault(alloc),
            JSXAttrValue::JSXFragment(node) => node.fault(alloc),
        }
    }
}

impl<N: FaultIn> FindsFault for JSXAttr<N> {
    ghost found = { λ n. findings N.found_as (jsx_attr n) };

    #[tactic(auto, unfolding(crate::specs::JsxRules::jsx_attr, crate::specs::Rules::findings))]
    fn fault(&self, alloc: Global) -> Found {
        within!(self, alloc; name value)
    }
}

impl<N: FaultIn> FindsFault for JSXAttrOrSpread<N> {
    ghost found = { λ n. findings N.found_as (jsx_attr_or_spread n) };

    #[tactic(auto, unfolding(crate::specs::JsxRules::jsx_attr_or_spread, crate::specs::Rules::findings))]
    fn fault(&self, alloc: Global) -> Found {
        match self {
            JSXAttrOrSpread::JSXAttr(node) => node.fault(alloc),
            JSXAttrOrSpread::SpreadElement(node) => node.fault(alloc),
        }
    }
}

impl<N: FaultIn> FindsFault for JSXOpeningElement<N> {
    ghost found = { λ n. findings N.found_as (jsx_opening_element n) };

    #[tactic(auto, unfolding(crate::specs::JsxRules::jsx_opening_element, crate::specs::Rules::findings))]
    fn fault(&self, alloc: Global) -> Found {
        within!(self, alloc; name type_args attrs)
    }
}

impl<N: FaultIn> FindsFault for JSXClosingElement<N> {
    ghost found = { λ n. findings N.found_as (jsx_closing_element n) };

    #[tactic(auto, unfolding(crate::specs::JsxRules::jsx_closing_element, crate::specs::Rules::findings))]
    fn fault(&self, alloc: Global) -> Found {
        within!(self, alloc; name)
    }
}

impl<N: FaultIn> FindsFault for JSXElementChild<N> {
    ghost found = { λ n. findings N.found_as (jsx_element_child n) };

    #[tactic(auto, unfolding(crate::specs::JsxRules::jsx_element_child, crate::specs::Rules::findings))]
    fn fault(&self, alloc: Global) -> Found {
        match self {
            JSXElementChild::JSXText(node) => node.fault(alloc),
            JSXElementChild::JSXExprContainer(node) => node.fault(alloc),
            JSXElementChild::JSXSpreadChild(node) => node.fault(alloc),
            JSXElementChild::JSXElement(node) => node.target().fault_as(Role::Child, alloc),
            JSXElementChild::JSXFragment(node) => node.target().fault_as(Role::Child, alloc),
        }
    }
}

impl<N: FaultIn> FindsFault for JSXElement<N> {
    ghost found = { λ n. findings N.found_as (jsx_element n) };

    #[tactic(auto, unfolding(crate::specs::JsxRules::jsx_element, crate::specs::Rules::findings))]
    fn fault(&self, alloc: Global) -> Found {
        in_turn! {
            broken_unless(alloc, ends_in_tag(&self.closing, &self.children), "an element without a closing tag ends in text"),
            broken_unless(alloc, are_parted(&self.children), "a text of JSX stands right behind another"),
            under(alloc, "opening", &self.opening),
            under(alloc, "children", &self.children),
            under(alloc, "closing", &self.closing),
        }
    }
}

impl<N: FaultIn> FindsFault for JSXFragment<N> {
    ghost found = { λ n. findings N.found_as (jsx_fragment n) };

    #[tactic(auto, unfolding(crate::specs::JsxRules::jsx_fragment, crate::specs::Rules::findings))]
    fn fault(&self, alloc: Global) -> Found {
        in_turn! {
            broken_unless(alloc, are_parted(&self.children), "a text of JSX stands right behind another"),
            under(alloc, "children", &self.children),
        }
    }
}

/// Whether an element has a closing tag, or doesn't end in text.
fn ends_in_tag<N>(closing: &Option<JSXClosingElement<N>>, children: &[JSXElementChild<N>]) -> bool
    ensures { result ≡ (is_some closing.now || not (ends_in_text false children.now)) }
{
    closing.is_some() || !ends_in_text(children)
}

/// What is wrong with a name in a tag.
#[tactic(auto, unfolding(crate::specs::JsxRules::tag_rules, crate::specs::Rules::findings))]
fn tag_fault(alloc: Global, name: &Ident) -> Found
    ensures { IfOk result (Finds (findings no_links (tag_rules name.now))) }
{
    in_turn! {
        broken_unless(alloc, !name.optional, "a name in a tag is said to be optional"),
        broken_unless(
            alloc,
            is_tag_ident(name),
            "a name in a tag holds a character that no name there may",
        ),
    }
}

/// What is wrong with a name that is a field of another in a tag.
fn tag_part_fault(alloc: Global, field: &'static str, name: &IdentName) -> Found
    ensures { IfOk result (Finds (below (Named field.now)
        (by_rule (is_possible (tag_ident_name name.now))
        (codes "a name in a tag holds a character that no name there may")))) }
{
    let found = broken_unless(
        alloc,
        is_tag_ident_name(name),
        "a name in a tag holds a character that no name there may",
    )?;
    match found {
        Some(broken) => Ok(Some(broken.below(Step::Field(field))?)),
        None => Ok(None),
    }
}
