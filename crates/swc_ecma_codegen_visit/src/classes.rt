//! Links and names of classes and their members. Made by scripts/dev/make-visit-files.

ghost use Rattle.swc_ecma_codegen_visit.specs.MappedClasses.{map_class, map_ts_param_prop_param};
ghost use Rattle.swc_ecma_codegen_visit.specs.MappedClasses.{map_ts_param_prop};
ghost use Rattle.swc_ecma_codegen_visit.specs.MappedClasses.{map_param_or_ts_param_prop};
ghost use Rattle.swc_ecma_codegen_visit.specs.MappedClasses.{map_constructor, map_class_method};
ghost use Rattle.swc_ecma_codegen_visit.specs.MappedClasses.{map_private_method, map_class_prop};
ghost use Rattle.swc_ecma_codegen_visit.specs.MappedClasses.{map_private_prop, map_static_block};
ghost use Rattle.swc_ecma_codegen_visit.specs.MappedClasses.{map_key, map_auto_accessor};
ghost use Rattle.swc_ecma_codegen_visit.specs.MappedClasses.{map_class_member};

use crate::below::{Below, Links, Stop};
use swc_ecma_codegen_tree::{
    AutoAccessor, Class, ClassMember, ClassMethod, ClassProp, Constructor, Key, ParamOrTsParamProp,
    PrivateMethod, PrivateProp, StaticBlock, TsParamProp, TsParamPropParam,
};

impl<N> Links<N> for Class<N> {
    ghost mapped = { map_class };

    fn links_mut<C, B: Below<N, C>>(&mut self, below: &B, change: &mut C) -> Result<(), Stop> {
        self.decorators.links_mut(below, change)?;
        self.body.links_mut(below, change)?;
        self.super_class.links_mut(below, change)?;
        self.type_params.links_mut(below, change)?;
        self.super_type_params.links_mut(below, change)?;
        self.implements.links_mut(below, change)
    }
}

impl<N> Links<N> for TsParamPropParam<N> {
    ghost mapped = { map_ts_param_prop_param };

    fn links_mut<C, B: Below<N, C>>(&mut self, below: &B, change: &mut C) -> Result<(), Stop> {
        match self {
            TsParamPropParam::Ident(node) => node.links_mut(below, change),
            TsParamPropParam::Assign(node) => node.links_mut(below, change),
        }
    }
}

impl<N> Links<N> for TsParamProp<N> {
    ghost mapped = { map_ts_param_prop };

    fn links_mut<C, B: Below<N, C>>(&mut self, below: &B, change: &mut C) -> Result<(), Stop> {
        self.decorators.links_mut(below, change)?;
        self.param.links_mut(below, change)
    }
}

impl<N> Links<N> for ParamOrTsParamProp<N> {
    ghost mapped = { map_param_or_ts_param_prop };

    fn links_mut<C, B: Below<N, C>>(&mut self, below: &B, change: &mut C) -> Result<(), Stop> {
        match self {
            ParamOrTsParamProp::TsParamProp(node) => node.links_mut(below, change),
            ParamOrTsParamProp::Param(node) => node.links_mut(below, change),
        }
    }
}

impl<N> Links<N> for Constructor<N> {
    ghost mapped = { map_constructor };

    fn links_mut<C, B: Below<N, C>>(&mut self, below: &B, change: &mut C) -> Result<(), Stop> {
        self.params.links_mut(below, change)?;
        self.body.links_mut(below, change)
    }
}

impl<N> Links<N> for ClassMethod<N> {
    ghost mapped = { map_class_method };

    fn links_mut<C, B: Below<N, C>>(&mut self, below: &B, change: &mut C) -> Result<(), Stop> {
        self.key.links_mut(below, change)?;
        self.function.links_mut(below, change)
    }
}

impl<N> Links<N> for PrivateMethod<N> {
    ghost mapped = { map_private_method };

    fn links_mut<C, B: Below<N, C>>(&mut self, below: &B, change: &mut C) -> Result<(), Stop> {
        self.function.links_mut(below, change)
    }
}

impl<N> Links<N> for ClassProp<N> {
    ghost mapped = { map_class_prop };

    fn links_mut<C, B: Below<N, C>>(&mut self, below: &B, change: &mut C) -> Result<(), Stop> {
        self.key.links_mut(below, change)?;
        self.value.links_mut(below, change)?;
        self.type_ann.links_mut(below, change)?;
        self.decorators.links_mut(below, change)
    }
}

impl<N> Links<N> for PrivateProp<N> {
    ghost mapped = { map_private_prop };

    fn links_mut<C, B: Below<N, C>>(&mut self, below: &B, change: &mut C) -> Result<(), Stop> {
        self.value.links_mut(below, change)?;
        self.type_ann.links_mut(below, change)?;
        self.decorators.links_mut(below, change)
    }
}

impl<N> Links<N> for StaticBlock<N> {
    ghost mapped = { map_static_block };

    fn links_mut<C, B: Below<N, C>>(&mut self, below: &B, change: &mut C) -> Result<(), Stop> {
        self.body.links_mut(below, change)
    }
}

impl<N> Links<N> for Key<N> {
    ghost mapped = { map_key };

    fn links_mut<C, B: Below<N, C>>(&mut self, below: &B, change: &mut C) -> Result<(), Stop> {
        match self {
            Key::Public(node) => node.links_mut(below, change),
            Key::Private(_) => Ok(()),
        }
    }
}

impl<N> Links<N> for AutoAccessor<N> {
    ghost mapped = { map_auto_accessor };

    fn links_mut<C, B: Below<N, C>>(&mut self, below: &B, change: &mut C) -> Result<(), Stop> {
        self.key.links_mut(below, change)?;
        self.value.links_mut(below, change)?;
        self.type_ann.links_mut(below, change)?;
        self.decorators.links_mut(below, change)
    }
}

impl<N> Links<N> for ClassMember<N> {
    ghost mapped = { map_class_member };

    fn links_mut<C, B: Below<N, C>>(&mut self, below: &B, change: &mut C) -> Result<(), Stop> {
        match self {
            ClassMember::Constructor(node) => node.links_mut(below, change),
            ClassMember::Method(node) => node.links_mut(below, change),
            ClassMember::PrivateMethod(node) => node.links_mut(below, change),
            ClassMember::ClassProp(node) => node.links_mut(below, change),
            ClassMember::PrivateProp(node) => node.links_mut(below, change),
            ClassMember::TsIndexSignature(node) => node.links_mut(below, change),
            ClassMember::StaticBlock(node) => node.links_mut(below, change),
            ClassMember::AutoAccessor(node) => node.links_mut(below, change),
            ClassMember::Empty(_) => Ok(()),
        }
    }
}
