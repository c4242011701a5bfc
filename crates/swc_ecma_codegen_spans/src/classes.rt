//! Where classes and their members stand.

ghost use Rattle.swc_ecma_codegen_spans.specs.Spans.{class_member_span, param_or_ts_param_prop_span, ts_param_prop_param_span, key_span};

use crate::spanned::Spanned;
use swc_ecma_codegen_common::Span;
use swc_ecma_codegen_tree::{
    AutoAccessor, Class, ClassMember, ClassMethod, ClassProp, Constructor, Key, ParamOrTsParamProp,
    PrivateMethod, PrivateProp, StaticBlock, TsParamProp, TsParamPropParam,
};

impl<N> Spanned for Class<N> {
    ghost place = { λ n. n.span };

    fn span(&self) -> Span {
        self.span
    }
}

impl<N> Spanned for ClassMember<N> {
    ghost place = { class_member_span };

    #[tactic(auto, unfolding(crate::specs::Spans::class_member_span))]
    fn span(&self) -> Span {
        match self {
            ClassMember::Constructor(node) => node.span(),
            ClassMember::Method(node) => node.span(),
            ClassMember::PrivateMethod(node) => node.span(),
            ClassMember::ClassProp(node) => node.span(),
            ClassMember::PrivateProp(node) => node.span(),
            ClassMember::TsIndexSignature(node) => node.span(),
            ClassMember::Empty(node) => node.span(),
            ClassMember::StaticBlock(node) => node.span(),
            ClassMember::AutoAccessor(node) => node.span(),
        }
    }
}

impl<N> Spanned for PrivateMethod<N> {
    ghost place = { λ n. n.span };

    fn span(&self) -> Span {
        self.span
    }
}

impl<N> Spanned for Constructor<N> {
    ghost place = { λ n. n.span };

    fn span(&self) -> Span {
        self.span
    }
}

impl<N> Spanned for ParamOrTsParamProp<N> {
    ghost place = { param_or_ts_param_prop_span };

    #[tactic(auto, unfolding(crate::specs::Spans::param_or_ts_param_prop_span))]
    fn span(&self) -> Span {
        match self {
            ParamOrTsParamProp::TsParamProp(node) => node.span(),
            ParamOrTsParamProp::Param(node) => node.span(),
        }
    }
}

impl<N> Spanned for TsParamProp<N> {
    ghost place = { λ n. n.span };

    fn span(&self) -> Span {
        self.span
    }
}

impl<N> Spanned for TsParamPropParam<N> {
    ghost place = { ts_param_prop_param_span };

    #[tactic(auto, unfolding(crate::specs::Spans::ts_param_prop_param_span))]
    fn span(&self) -> Span {
        match self {
            TsParamPropParam::Ident(node) => node.span(),
            TsParamPropParam::Assign(node) => node.span(),
        }
    }
}

impl<N> Spanned for ClassMethod<N> {
    ghost place = { λ n. n.span };

    fn span(&self) -> Span {
        self.span
    }
}

impl<N> Spanned for ClassProp<N> {
    ghost place = { λ n. n.span };

    fn span(&self) -> Span {
        self.span
    }
}

impl<N> Spanned for PrivateProp<N> {
    ghost place = { λ n. n.span };

    fn span(&self) -> Span {
        self.span
    }
}

impl<N> Spanned for AutoAccessor<N> {
    ghost place = { λ n. n.span };

    fn span(&self) -> Span {
        self.span
    }
}

impl<N: Spanned> Spanned for Key<N> {
    ghost place = { key_span N.place };

    #[tactic(auto, unfolding(crate::specs::Spans::key_span))]
    fn span(&self) -> Span {
        match self {
            Key::Private(node) => node.span(),
            Key::Public(node) => node.span(),
        }
    }
}

impl<N> Spanned for StaticBlock<N> {
    ghost place = { λ n. n.span };

    fn span(&self) -> Span {
        self.span
    }
}
