//! Declarations, functions and classes.

ghost use Rattle.std.specs.Prelude.{◌≡◌, ◌&&◌, ◌||◌, not, IfOk};
ghost use Rattle.std.specs.Option.{is_some};
ghost use Rattle.swc_ecma_codegen_validate.specs.Rules.{findings, Finds};
ghost use Rattle.swc_ecma_codegen_validate.specs.DeclRules.{decorator, param, function, fn_expr, block_stmt_or_expr, arrow_expr, fn_decl, var_declarator, var_decl, using_decl, decl, class, class_decl, class_expr, param_or_ts_param_prop, ts_param_prop_param, ts_param_prop, constructor, class_method, private_method, class_prop, private_prop, key, auto_accessor, static_block, class_member, is_name_alone, tail_role, method_tail, accessor_tail};

use crate::faults::{
    FaultIn, FindsFault, Found, broken_unless, in_turn, stands_with, under, under_as, within,
};
use std::alloc::Global;
use swc_ecma_codegen_grammar::roles::Role;
use swc_ecma_codegen_tree::{
    ArrowExpr, AutoAccessor, BlockStmtOrExpr, Class, ClassDecl, ClassExpr, ClassMember,
    ClassMethod, ClassProp, Constructor, Decl, Decorator, FnDecl, FnExpr, Function, Key,
    MethodKind, Param, ParamOrTsParamProp, Pat, PrivateMethod, PrivateProp, StaticBlock,
    TsParamProp, TsParamPropParam, TsTypeAnnBox, UsingDecl, VarDecl, VarDeclarator,
};

impl<N: FaultIn> FindsFault for Decorator<N> {
    ghost found = { λ n. findings N.found_as (decorator n) };

    #[tactic(auto, unfolding(crate::specs::DeclRules::decorator, crate::specs::Rules::findings))]
    fn fault(&self, alloc: Global) -> Found {
        within!(self, alloc; expr)
    }
}

impl<N: FaultIn> FindsFault for Param<N> {
    ghost found = { λ n. findings N.found_as (param n) };

    #[tactic(auto, unfolding(crate::specs::DeclRules::param, crate::specs::Rules::findings))]
    fn fault(&self, alloc: Global) -> Found {
        within!(self, alloc; decorators pat)
    }
}

impl<N: FaultIn> FindsFault for Function<N> {
    ghost found = { λ n. findings N.found_as (function n) };

    #[tactic(auto, unfolding(crate::specs::DeclRules::function, crate::specs::Rules::findings))]
    fn fault(&self, alloc: Global) -> Found {
        in_turn! {
            broken_unless(alloc, self.decorators.is_empty(), "a function that is no method has decorators"),
            under(alloc, "type_params", &self.type_params),
            under(alloc, "params", &self.params),
            under(alloc, "return_type", &self.return_type),
            under(alloc, "body", &self.body),
        }
    }
}

impl<N: FaultIn> FindsFault for FnExpr<N> {
    ghost found = { λ n. findings N.found_as (fn_expr n) };

    #[tactic(auto, unfolding(crate::specs::DeclRules::fn_expr, crate::specs::Rules::findings))]
    fn fault(&self, alloc: Global) -> Found {
        within!(self, alloc; ident function)
    }
}

impl<N: FaultIn> FindsFault for BlockStmtOrExpr<N> {
    ghost found = { λ n. findings N.found_as (block_stmt_or_expr n) };

    #[tactic(auto, unfolding(crate::specs::DeclRules::block_stmt_or_expr, crate::specs::Rules::findings))]
    fn fault(&self, alloc: Global) -> Found {
        match self {
            BlockStmtOrExpr::BlockStmt(node) => node.fault(alloc),
            BlockStmtOrExpr::Expr(node) => node.fault(alloc),
        }
    }
}

impl<N: FaultIn> FindsFault for ArrowExpr<N> {
    ghost found = { λ n. findings N.found_as (arrow_expr n) };

    #[tactic(auto, unfolding(crate::specs::DeclRules::arrow_expr, crate::specs::Rules::findings))]
    fn fault(&self, alloc: Global) -> Found {
        within!(self, alloc; type_params params return_type body)
    }
}

impl<N: FaultIn> FindsFault for FnDecl<N> {
    ghost found = { λ n. findings N.found_as (fn_decl n) };

    #[tactic(auto, unfolding(crate::specs::DeclRules::fn_decl, crate::specs::Rules::findings))]
    fn fault(&self, alloc: Global) -> Found {
        within!(self, alloc; ident function)
    }
}

impl<N: FaultIn> FindsFault for VarDeclarator<N> {
    ghost found = { λ n. findings N.found_as (var_declarator n) };

    #[tactic(auto, unfolding(crate::specs::DeclRules::var_declarator, crate::specs::Rules::findings))]
    fn fault(&self, alloc: Global) -> Found {
        in_turn! {
            broken_unless(alloc, is_name_if_definite(self.definite, &self.name), "a pattern is said to have a value"),
            under(alloc, "name", &self.name),
            under(alloc, "init", &self.init),
        }
    }
}

impl<N: FaultIn> FindsFault for VarDecl<N> {
    ghost found = { λ n. findings N.found_as (var_decl n) };

    #[tactic(auto, unfolding(crate::specs::DeclRules::var_decl, crate::specs::Rules::findings))]
    fn fault(&self, alloc: Global) -> Found {
        in_turn! {
            broken_unless(alloc, !self.decls.is_empty(), "a declaration declares nothing"),
            under(alloc, "decls", &self.decls),
        }
    }
}

impl<N: FaultIn> FindsFault for UsingDecl<N> {
    ghost found = { λ n. findings N.found_as (using_decl n) };

    #[tactic(auto, unfolding(crate::specs::DeclRules::using_decl, crate::specs::Rules::findings))]
    fn fault(&self, alloc: Global) -> Found {
        in_turn! {
            broken_unless(alloc, !self.decls.is_empty(), "a declaration declares nothing"),
            under(alloc, "decls", &self.decls),
        }
    }
}

impl<N: FaultIn> FindsFault for Decl<N> {
    ghost found = { λ n. findings N.found_as (decl n) };

    #[tactic(auto, unfolding(crate::specs::DeclRules::decl, crate::specs::Rules::findings))]
    fn fault(&self, alloc: Global) -> Found {
        match self {
            Decl::Class(node) => node.fault(alloc),
            Decl::Fn(node) => node.fault(alloc),
            Decl::Var(node) => node.fault(alloc),
            Decl::Using(node) => node.fault(alloc),
            Decl::TsInterface(node) => node.fault(alloc),
            Decl::TsTypeAlias(node) => node.fault(alloc),
            Decl::TsEnum(node) => node.fault(alloc),
            Decl::TsModule(node) => node.fault(alloc),
        }
    }
}

impl<N: FaultIn> FindsFault for Class<N> {
    ghost found = { λ n. findings N.found_as (class n) };

    #[tactic(auto, unfolding(crate::specs::DeclRules::class, crate::specs::Rules::findings))]
    fn fault(&self, alloc: Global) -> Found {
        in_turn! {
            broken_unless(alloc, stands_with(&self.super_class, &self.super_type_params), "a class that extends none has arguments of types for it"),
            under(alloc, "type_params", &self.type_params),
            under(alloc, "super_class", &self.super_class),
            under(alloc, "super_type_params", &self.super_type_params),
            under(alloc, "implements", &self.implements),
            under(alloc, "body", &self.body),
        }
    }
}

impl<N: FaultIn> FindsFault for ClassDecl<N> {
    ghost found = { λ n. findings N.found_as (class_decl n) };

    #[tactic(auto, unfolding(crate::specs::DeclRules::class_decl, crate::specs::Rules::findings))]
    fn fault(&self, alloc: Global) -> Found {
        in_turn! {
            under_as(alloc, "class", &self.class, Role::ClassHead),
            under(alloc, "ident", &self.ident),
            under_as(alloc, "class", &self.class, Role::ClassTail),
        }
    }
}

impl<N: FaultIn> FindsFault for ClassExpr<N> {
    ghost found = { λ n. findings N.found_as (class_expr n) };

    #[tactic(auto, unfolding(crate::specs::DeclRules::class_expr, crate::specs::Rules::findings))]
    fn fault(&self, alloc: Global) -> Found {
        in_turn! {
            under_as(alloc, "class", &self.class, Role::ClassHead),
            under(alloc, "ident", &self.ident),
            under_as(alloc, "class", &self.class, Role::ClassTail),
        }
    }
}

impl<N: FaultIn> FindsFault for ParamOrTsParamProp<N> {
    ghost found = { λ n. findings N.found_as (param_or_ts_param_prop n) };

    #[tactic(auto, unfolding(crate::specs::DeclRules::param_or_ts_param_prop, crate::specs::Rules::findings))]
    fn fault(&self, alloc: Global) -> Found {
        match self {
            ParamOrTsParamProp::TsParamProp(node) => node.fault(alloc),
            ParamOrTsParamProp::Param(node) => node.fault(alloc),
        }
    }
}

impl<N: FaultIn> FindsFault for TsParamPropParam<N> {
    ghost found = { λ n. findings N.found_as (ts_param_prop_param n) };

    #[tactic(auto, unfolding(crate::specs::DeclRules::ts_param_prop_param, crate::specs::Rules::findings))]
    fn fault(&self, alloc: Global) -> Found {
        match self {
            TsParamPropParam::Ident(node) => node.fault(alloc),
            TsParamPropParam::Assign(node) => node.fault(alloc),
        }
    }
}

impl<N: FaultIn> FindsFault for TsParamProp<N> {
    ghost found = { λ n. findings N.found_as (ts_param_prop n) };

    #[tactic(auto, unfolding(crate::specs::DeclRules::ts_param_prop, crate::specs::Rules::findings))]
    fn fault(&self, alloc: Global) -> Found {
        within!(self, alloc; decorators param)
    }
}

impl<N: FaultIn> FindsFault for Constructor<N> {
    ghost found = { λ n. findings N.found_as (constructor n) };

    #[tactic(auto, unfolding(crate::specs::DeclRules::constructor, crate::specs::Rules::findings))]
    fn fault(&self, alloc: Global) -> Found {
        within!(self, alloc; params body)
    }
}

impl<N: FaultIn> FindsFault for ClassMethod<N> {
    ghost found = { λ n. findings N.found_as (class_method n) };

    #[tactic(auto, unfolding(crate::specs::DeclRules::class_method, crate::specs::Rules::findings))]
    fn fault(&self, alloc: Global) -> Found {
        in_turn! {
            under_as(alloc, "function", &self.function, Role::MethodDecorators),
            under(alloc, "key", &self.key),
            under_as(alloc, "function", &self.function, tail_role(self.kind)),
        }
    }
}

impl<N: FaultIn> FindsFault for PrivateMethod<N> {
    ghost found = { λ n. findings N.found_as (private_method n) };

    #[tactic(auto, unfolding(crate::specs::DeclRules::private_method, crate::specs::Rules::findings))]
    fn fault(&self, alloc: Global) -> Found {
        in_turn! {
            under_as(alloc, "function", &self.function, Role::MethodDecorators),
            under(alloc, "key", &self.key),
            under_as(alloc, "function", &self.function, tail_role(self.kind)),
        }
    }
}

impl<N: FaultIn> FindsFault for ClassProp<N> {
    ghost found = { λ n. findings N.found_as (class_prop n) };

    #[tactic(auto, unfolding(crate::specs::DeclRules::class_prop, crate::specs::Rules::findings))]
    fn fault(&self, alloc: Global) -> Found {
        in_turn! {
            broken_unless(alloc, is_typed_if_definite(self.definite, &self.type_ann), "a field without a type is said to have a value"),
            under(alloc, "decorators", &self.decorators),
            under(alloc, "key", &self.key),
            under(alloc, "type_ann", &self.type_ann),
            under(alloc, "value", &self.value),
        }
    }
}

impl<N: FaultIn> FindsFault for PrivateProp<N> {
    ghost found = { λ n. findings N.found_as (private_prop n) };

    #[tactic(auto, unfolding(crate::specs::DeclRules::private_prop, crate::specs::Rules::findings))]
    fn fault(&self, alloc: Global) -> Found {
        in_turn! {
            broken_unless(alloc, is_typed_if_definite(self.definite, &self.type_ann), "a field without a type is said to have a value"),
            under(alloc, "decorators", &self.decorators),
            under(alloc, "key", &self.key),
            under(alloc, "type_ann", &self.type_ann),
            under(alloc, "value", &self.value),
        }
    }
}

impl<N: FaultIn> FindsFault for Key<N> {
    ghost found = { λ n. findings N.found_as (key n) };

    #[tactic(auto, unfolding(crate::specs::DeclRules::key, crate::specs::Rules::findings))]
    fn fault(&self, alloc: Global) -> Found {
        match self {
            Key::Private(node) => node.fault(alloc),
            Key::Public(node) => node.fault(alloc),
        }
    }
}

impl<N: FaultIn> FindsFault for AutoAccessor<N> {
    ghost found = { λ n. findings N.found_as (auto_accessor n) };

    #[tactic(auto, unfolding(crate::specs::DeclRules::auto_accessor, crate::specs::Rules::findings))]
    fn fault(&self, alloc: Global) -> Found {
        in_turn! {
            broken_unless(alloc, is_typed_if_definite(self.definite, &self.type_ann), "a field without a type is said to have a value"),
            under(alloc, "decorators", &self.decorators),
            under(alloc, "key", &self.key),
            under(alloc, "type_ann", &self.type_ann),
            under(alloc, "value", &self.value),
        }
    }
}

impl<N: FaultIn> FindsFault for StaticBlock<N> {
    ghost found = { λ n. findings N.found_as (static_block n) };

    #[tactic(auto, unfolding(crate::specs::DeclRules::static_block, crate::specs::Rules::findings))]
    fn fault(&self, alloc: Global) -> Found {
        within!(self, alloc; body)
    }
}

impl<N: FaultIn> FindsFault for ClassMember<N> {
    ghost found = { λ n. findings N.found_as (class_member n) };

    #[tactic(auto, unfolding(crate::specs::DeclRules::class_member, crate::specs::Rules::findings))]
    fn fault(&self, alloc: Global) -> Found {
        match self {
            ClassMember::Constructor(node) => node.fault(alloc),
            ClassMember::Method(node) => node.fault(alloc),
            ClassMember::PrivateMethod(node) => node.fault(alloc),
            ClassMember::ClassProp(node) => node.fault(alloc),
            ClassMember::PrivateProp(node) => node.fault(alloc),
            ClassMember::TsIndexSignature(node) => node.fault(alloc),
            ClassMember::Empty(_) => Ok(None),
            ClassMember::StaticBlock(node) => node.fault(alloc),
            ClassMember::AutoAccessor(node) => node.fault(alloc),
        }
    }
}

/// What the function of a class's member is.
#[tactic(auto, unfolding(crate::specs::DeclRules::tail_role))]
fn tail_role(kind: MethodKind) -> Role
    ensures { result ≡ tail_role kind }
{
    match kind {
        MethodKind::Method => Role::MethodTail,
        MethodKind::Getter | MethodKind::Setter => Role::AccessorTail,
    }
}

/// Whether a field that is said to have a value has a type.
fn is_typed_if_definite<N>(definite: bool, type_ann: &Option<TsTypeAnnBox<N>>) -> bool
    ensures { result ≡ (not definite || is_some type_ann.now) }
{
    !definite || type_ann.is_some()
}

/// Whether what is said to have a value is a name alone.
#[tactic(auto, unfolding(crate::specs::DeclRules::is_name_alone))]
fn is_name_if_definite<N>(definite: bool, name: &Pat<N>) -> bool
    ensures { result ≡ (not definite || is_name_alone name.now) }
{
    !definite || matches!(name, Pat::Ident(_))
}

/// Whether a function is neither async nor a generator.
fn is_plain<N>(node: &Function<N>) -> bool
    ensures { result ≡ (not node.now.is_async && not node.now.is_generator) }
{
    !node.is_async && !node.is_generator
}

/// What is wrong with the function of a method, whose decorators stand elsewhere.
#[tactic(auto, unfolding(crate::specs::DeclRules::method_tail, crate::specs::Rules::findings))]
pub(crate) fn method_fault<N: FaultIn>(alloc: Global, node: &Function<N>) -> Found
    ensures { IfOk result (Finds (findings N.found_as (method_tail node.now))) }
{
    within!(node, alloc; type_params params return_type body)
}

/// What is wrong with the function of a getter or a setter.
#[tactic(auto, unfolding(crate::specs::DeclRules::accessor_tail, crate::specs::Rules::findings))]
pub(crate) fn accessor_fault<N: FaultIn>(alloc: Global, node: &Function<N>) -> Found
    ensures { IfOk result (Finds (findings N.found_as (accessor_tail node.now))) }
{
    in_turn! {
        broken_unless(
            alloc,
            is_plain(node),
            "a getter or a setter is async, or a generator",
        ),
        method_fault(alloc, node),
    }
}
