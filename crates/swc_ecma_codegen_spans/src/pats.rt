//! Where patterns stand.

ghost use Rattle.swc_ecma_codegen_spans.specs.Spans.{pat_span, object_pat_prop_span, key_value_pat_prop_span, assign_target_span, assign_target_pat_span, simple_assign_target_span};

use crate::spanned::Spanned;
use swc_ecma_codegen_common::Span;
use swc_ecma_codegen_tree::{
    ArrayPat, AssignPat, AssignPatProp, AssignTarget, AssignTargetPat, KeyValuePatProp, ObjectPat,
    ObjectPatProp, Pat, RestPat, SimpleAssignTarget,
};

impl<N: Spanned> Spanned for Pat<N> {
    ghost place = { pat_span N.place };

    #[tactic(auto, unfolding(crate::specs::Spans::pat_span))]
    fn span(&self) -> Span {
        match self {
            Pat::Ident(node) => node.span(),
            Pat::Array(node) => node.span(),
            Pat::Rest(node) => node.span(),
            Pat::Object(node) => node.span(),
            Pat::Assign(node) => node.span(),
            Pat::Invalid(node) => node.span(),
            Pat::Expr(node) => node.span(),
        }
    }
}

impl<N> Spanned for ArrayPat<N> {
    ghost place = { λ n. n.span };

    fn span(&self) -> Span {
        self.span
    }
}

impl<N> Spanned for ObjectPat<N> {
    ghost place = { λ n. n.span };

    fn span(&self) -> Span {
        self.span
    }
}

impl<N> Spanned for RestPat<N> {
    ghost place = { λ n. n.span };

    fn span(&self) -> Span {
        self.span
    }
}

impl<N> Spanned for AssignPat<N> {
    ghost place = { λ n. n.span };

    fn span(&self) -> Span {
        self.span
    }
}

impl<N: Spanned> Spanned for ObjectPatProp<N> {
    ghost place = { object_pat_prop_span N.place };

    #[tactic(auto, unfolding(crate::specs::Spans::object_pat_prop_span))]
    fn span(&self) -> Span {
        match self {
            ObjectPatProp::KeyValue(node) => node.span(),
            ObjectPatProp::Assign(node) => node.span(),
            ObjectPatProp::Rest(node) => node.span(),
        }
    }
}

impl<N: Spanned> Spanned for KeyValuePatProp<N> {
    ghost place = { key_value_pat_prop_span N.place };

    #[tactic(auto, unfolding(crate::specs::Spans::key_value_pat_prop_span))]
    fn span(&self) -> Span {
        Span {
            lo: self.key.span().lo,
            hi: self.value.span().hi,
        }
    }
}

impl<N> Spanned for AssignPatProp<N> {
    ghost place = { λ n. n.span };

    fn span(&self) -> Span {
        self.span
    }
}

impl<N: Spanned> Spanned for AssignTarget<N> {
    ghost place = { assign_target_span N.place };

    #[tactic(auto, unfolding(crate::specs::Spans::assign_target_span))]
    fn span(&self) -> Span {
        match self {
            AssignTarget::Simple(node) => node.span(),
            AssignTarget::Pat(node) => node.span(),
        }
    }
}

impl<N> Spanned for AssignTargetPat<N> {
    ghost place = { assign_target_pat_span };

    #[tactic(auto, unfolding(crate::specs::Spans::assign_target_pat_span))]
    fn span(&self) -> Span {
        match self {
            AssignTargetPat::Array(node) => node.span(),
            AssignTargetPat::Object(node) => node.span(),
            AssignTargetPat::Invalid(node) => node.span(),
        }
    }
}

impl<N: Spanned> Spanned for SimpleAssignTarget<N> {
    ghost place = { simple_assign_target_span N.place };

    #[tactic(auto, unfolding(crate::specs::Spans::simple_assign_target_span))]
    fn span(&self) -> Span {
        match self {
            SimpleAssignTarget::Ident(node) => node.span(),
            SimpleAssignTarget::Member(node) => node.span(),
            SimpleAssignTarget::SuperProp(node) => node.span(),
            SimpleAssignTarget::Paren(node) => node.span(),
            SimpleAssignTarget::OptChain(node) => node.span(),
            SimpleAssignTarget::TsAs(node) => node.span(),
            SimpleAssignTarget::TsSatisfies(node) => node.span(),
            SimpleAssignTarget::TsNonNull(node) => node.span(),
            SimpleAssignTarget::TsTypeAssertion(node) => node.span(),
            SimpleAssignTarget::TsInstantiation(node) => node.span(),
            SimpleAssignTarget::Invalid(node) => node.span(),
        }
    }
}
