//! Classes.

ghost use Rattle.swc_ecma_codegen_parentheses.specs.SameClasses.{same_class, same_ts_param_prop_param, same_ts_param_prop, same_param_or_ts_param_prop, same_constructor, same_class_method, same_private_method, same_class_prop, same_private_prop, same_static_block, same_key, same_auto_accessor, same_class_member};
ghost use Rattle.swc_ecma_codegen_parentheses.specs.SameDecls.{same_class_decl};
ghost use Rattle.swc_ecma_codegen_parentheses.specs.SameExprs.{same_class_expr};

use crate::mends::{Mend, Mends, Stop, mend_optional};
use crate::places::Place;
use std::alloc::Global;
use swc_ecma_codegen_syntax::{Answers, Nonterminal};
use swc_ecma_codegen_tree::{
    AutoAccessor, Class, ClassDecl, ClassExpr, ClassMember, ClassMethod, ClassProp, Constructor,
    Key, ParamOrTsParamProp, PrivateMethod, PrivateProp, StaticBlock, TsParamProp,
    TsParamPropParam,
};

impl<N: Answers, M: Mends<N>> Mend<N, M> for ClassExpr<N> {
    ghost same = { same_class_expr };

    #[tactic(auto, unfolding(crate::specs::SameExprs::same_class_expr))]
    fn mend(&mut self, mender: &M, alloc: Global, place: Place) -> Result<(), Stop> {
        self.class.mend(mender, alloc, place)
    }
}

impl<N: Answers, M: Mends<N>> Mend<N, M> for ClassDecl<N> {
    ghost same = { same_class_decl };

    #[tactic(auto, unfolding(crate::specs::SameDecls::same_class_decl))]
    fn mend(&mut self, mender: &M, alloc: Global, place: Place) -> Result<(), Stop> {
        self.class.mend(mender, alloc, place)
    }
}

impl<N: Answers, M: Mends<N>> Mend<N, M> for Class<N> {
    ghost same = { same_class };

    #[tactic(auto, unfolding(crate::specs::SameClasses::same_class))]
    fn mend(&mut self, mender: &M, alloc: Global, place: Place) -> Result<(), Stop> {
        self.decorators.mend(mender, alloc, place)?;
        self.body.mend(mender, alloc, place)?;
        let nonterminal = Nonterminal::LeftHandSideExpression;
        mend_optional(mender, alloc, &mut self.super_class, place, nonterminal)
    }
}

impl<N: Answers, M: Mends<N>> Mend<N, M> for TsParamPropParam<N> {
    ghost same = { same_ts_param_prop_param };

    #[tactic(auto, unfolding(crate::specs::SameClasses::same_ts_param_prop_param))]
    fn mend(&mut self, mender: &M, alloc: Global, place: Place) -> Result<(), Stop> {
        match self {
            TsParamPropParam::Assign(node) => node.mend(mender, alloc, place),
            TsParamPropParam::Ident(_) => Ok(()),
        }
    }
}

impl<N: Answers, M: Mends<N>> Mend<N, M> for TsParamProp<N> {
    ghost same = { same_ts_param_prop };

    #[tactic(auto, unfolding(crate::specs::SameClasses::same_ts_param_prop))]
    fn mend(&mut self, mender: &M, alloc: Global, place: Place) -> Result<(), Stop> {
        self.decorators.mend(mender, alloc, place)?;
        self.param.mend(mender, alloc, place)
    }
}

impl<N: Answers, M: Mends<N>> Mend<N, M> for ParamOrTsParamProp<N> {
    ghost same = { same_param_or_ts_param_prop };

    #[tactic(auto, unfolding(crate::specs::SameClasses::same_param_or_ts_param_prop))]
    fn mend(&mut self, mender: &M, alloc: Global, place: Place) -> Result<(), Stop> {
        match self {
            ParamOrTsParamProp::Param(node) => node.mend(mender, alloc, place),
            ParamOrTsParamProp::TsParamProp(node) => node.mend(mender, alloc, place),
        }
    }
}

impl<N: Answers, M: Mends<N>> Mend<N, M> for Constructor<N> {
    ghost same = { same_constructor };

    #[tactic(auto, unfolding(crate::specs::SameClasses::same_constructor))]
    fn mend(&mut self, mender: &M, alloc: Global, place: Place) -> Result<(), Stop> {
        self.params.mend(mender, alloc, place)?;
        self.body.mend(mender, alloc, place)
    }
}

impl<N: Answers, M: Mends<N>> Mend<N, M> for ClassMethod<N> {
    ghost same = { same_class_method };

    #[tactic(auto, unfolding(crate::specs::SameClasses::same_class_method))]
    fn mend(&mut self, mender: &M, alloc: Global, place: Place) -> Result<(), Stop> {
        self.key.mend(mender, alloc, place)?;
        self.function.mend(mender, alloc, place)
    }
}

impl<N: Answers, M: Mends<N>> Mend<N, M> for PrivateMethod<N> {
    ghost same = { same_private_method };

    #[tactic(auto, unfolding(crate::specs::SameClasses::same_private_method))]
    fn mend(&mut self, mender: &M, alloc: Global, place: Place) -> Result<(), Stop> {
        self.function.mend(mender, alloc, place)
    }
}

impl<N: Answers, M: Mends<N>> Mend<N, M> for ClassProp<N> {
    ghost same = { same_class_prop };

    #[tactic(auto, unfolding(crate::specs::SameClasses::same_class_prop))]
    fn mend(&mut self, mender: &M, alloc: Global, place: Place) -> Result<(), Stop> {
        self.decorators.mend(mender, alloc, place)?;
        self.key.mend(mender, alloc, place)?;
        let nonterminal = Nonterminal::AssignmentExpression;
        mend_optional(mender, alloc, &mut self.value, place, nonterminal)
    }
}

impl<N: Answers, M: Mends<N>> Mend<N, M> for PrivateProp<N> {
    ghost same = { same_private_prop };

    #[tactic(auto, unfolding(crate::specs::SameClasses::same_private_prop))]
    fn mend(&mut self, mender: &M, alloc: Global, place: Place) -> Result<(), Stop> {
        self.decorators.mend(mender, alloc, place)?;
        let nonterminal = Nonterminal::AssignmentExpression;
        mend_optional(mender, alloc, &mut self.value, place, nonterminal)
    }
}

impl<N: Answers, M: Mends<N>> Mend<N, M> for StaticBlock<N> {
    ghost same = { same_static_block };

    #[tactic(auto, unfolding(crate::specs::SameClasses::same_static_block))]
    fn mend(&mut self, mender: &M, alloc: Global, place: Place) -> Result<(), Stop> {
        self.body.mend(mender, alloc, place)
    }
}

impl<N: Answers, M: Mends<N>> Mend<N, M> for Key<N> {
    ghost same = { same_key };

    #[tactic(auto, unfolding(crate::specs::SameClasses::same_key))]
    fn mend(&mut self, mender: &M, alloc: Global, place: Place) -> Result<(), Stop> {
        match self {
            Key::Public(node) => node.mend(mender, alloc, place),
            Key::Private(_) => Ok(()),
        }
    }
}

impl<N: Answers, M: Mends<N>> Mend<N, M> for AutoAccessor<N> {
    ghost same = { same_auto_accessor };

    #[tactic(auto, unfolding(crate::specs::SameClasses::same_auto_accessor))]
    fn mend(&mut self, mender: &M, alloc: Global, place: Place) -> Result<(), Stop> {
        self.decorators.mend(mender, alloc, place)?;
        self.key.mend(mender, alloc, place)?;
        let nonterminal = Nonterminal::AssignmentExpression;
        mend_optional(mender, alloc, &mut self.value, place, nonterminal)
    }
}

impl<N: Answers, M: Mends<N>> Mend<N, M> for ClassMember<N> {
    ghost same = { same_class_member };

    #[tactic(auto, unfolding(crate::specs::SameClasses::same_class_member))]
    fn mend(&mut self, mender: &M, alloc: Global, place: Place) -> Result<(), Stop> {
        match self {
            ClassMember::Constructor(node) => node.mend(mender, alloc, place),
            ClassMember::Method(node) => node.mend(mender, alloc, place),
            ClassMember::PrivateMethod(node) => node.mend(mender, alloc, place),
            ClassMember::ClassProp(node) => node.mend(mender, alloc, place),
            ClassMember::PrivateProp(node) => node.mend(mender, alloc, place),
            ClassMember::StaticBlock(node) => node.mend(mender, alloc, place),
            ClassMember::AutoAccessor(node) => node.mend(mender, alloc, place),
            _ => Ok(()),
        }
    }
}
