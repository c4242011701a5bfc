//! Declarations and functions.

ghost use Rattle.std.specs.Prelude.{◌≡◌};
ghost use Rattle.swc_ecma_codegen_tree.specs.Spellings.{declaration_word};

use crate::idents::Ident;
use crate::links::AnyNode;
use crate::pats::Pat;
use crate::sorts::{
    BlockStmtBox, ClassBox, ExprBox, FunctionBox, TsTypeAnnBox, TsTypeParamDeclBox,
};
use crate::ts_decls::{TsEnumDecl, TsInterfaceDecl, TsModuleDecl, TsTypeAliasDecl};
use swc_ecma_codegen_common::Span;

/// `let a = 1;` or `class A {}`. ECMA-262, section 14.
#[derive(Drop)]
pub enum Decl<N = AnyNode> {
    /// `class A {}`
    Class(ClassDecl<N>),
    /// `function f() {}`
    Fn(FnDecl<N>),
    /// `let a = 1, b;`
    Var(VarDecl<N>),
    /// `using a = b;`
    Using(UsingDecl<N>),
    /// TypeScript: `interface A {}`
    TsInterface(Box<TsInterfaceDecl<N>>),
    /// TypeScript: `type A = T;`
    TsTypeAlias(Box<TsTypeAliasDecl<N>>),
    /// TypeScript: `enum A { B }`
    TsEnum(Box<TsEnumDecl<N>>),
    /// TypeScript: `namespace A {}`
    TsModule(Box<TsModuleDecl<N>>),
}

/// `class A {}` as a declaration. ECMA-262, section 15.7.
#[derive(Drop)]
pub struct ClassDecl<N = AnyNode> {
    /// `A` of `class A {}`.
    pub ident: Ident,
    /// TypeScript: whether `declare` stands first, `declare class A {}`.
    pub declare: bool,
    /// `class {}` of `class A {}`, all but the name.
    pub class: ClassBox<N>,
}

/// `function f() {}` as a declaration. ECMA-262, section 15.2.
#[derive(Drop)]
pub struct FnDecl<N = AnyNode> {
    /// `f` of `function f() {}`.
    pub ident: Ident,
    /// TypeScript: whether `declare` stands first, `declare function f();`.
    pub declare: bool,
    /// `() {}` of `function f() {}`, all but the name.
    pub function: FunctionBox<N>,
}

/// `let a = 1, b;`. ECMA-262, section 14.3.
#[derive(Drop)]
pub struct VarDecl<N = AnyNode> {
    pub span: Span,
    /// `let` of `let a = 1, b;`.
    pub kind: VarDeclKind,
    /// TypeScript: whether `declare` stands first, `declare let a;`.
    pub declare: bool,
    /// `a = 1` and `b` of `let a = 1, b;`.
    pub decls: Vec<VarDeclarator<N>>,
}

/// `let` of `let a = 1;`. ECMA-262, section 14.3.
#[derive(Clone, Copy, Debug, PartialEq, Eq)]
pub enum VarDeclKind {
    /// `var` of `var a;`
    Var,
    /// `let` of `let a;`
    Let,
    /// `const` of `const a = 1;`
    Const,
}

impl VarDeclKind {
    /// Its spelling: `let`.
    #[tactic(auto, unfolding(crate::specs::Spellings::declaration_word))]
    pub fn as_str(self) -> &'static str
        ensures { result.now ≡ declaration_word self }
    {
        match self {
            VarDeclKind::Var => "var",
            VarDeclKind::Let => "let",
            VarDeclKind::Const => "const",
        }
    }
}

/// `a = 1` of `let a = 1;`. ECMA-262, section 14.3.
#[derive(Drop)]
pub struct VarDeclarator<N = AnyNode> {
    pub span: Span,
    /// `a` of `let a = 1;`.
    pub name: Pat<N>,
    /// `1` of `let a = 1;`, or none of `let a;`.
    pub init: Option<ExprBox<N>>,
    /// TypeScript: whether `!` stands after the name, `let a!: T;`.
    pub definite: bool,
}

/// `using a = b;`. A proposal, not in ECMA-262, 2024 edition.
#[derive(Drop)]
pub struct UsingDecl<N = AnyNode> {
    pub span: Span,
    /// Whether `await` stands first, `await using a = b;`.
    pub is_await: bool,
    /// `a = b` and `c = d` of `using a = b, c = d;`.
    pub decls: Vec<VarDeclarator<N>>,
}

/// `function (a) { b; }`: a function or method without its name. ECMA-262, section 15.2.
#[derive(Drop)]
pub struct Function<N = AnyNode> {
    pub span: Span,
    /// `a` and `b` of `function f(a, b) {}`.
    pub params: Vec<Param<N>>,
    /// `@a` of the method `@a b() {}`. A proposal.
    pub decorators: Vec<Decorator<N>>,
    /// `{ a; }` of `function f() { a; }`, or none of TypeScript's `function f();`.
    pub body: Option<BlockStmtBox<N>>,
    /// Whether it is a generator, `function* f() {}`.
    pub is_generator: bool,
    /// Whether it is asynchronous, `async function f() {}`.
    pub is_async: bool,
    /// TypeScript: `<T>` of `function f<T>() {}`, or none of `function f() {}`.
    pub type_params: Option<TsTypeParamDeclBox<N>>,
    /// TypeScript: `: T` of `function f(): T {}`, or none of `function f() {}`.
    pub return_type: Option<TsTypeAnnBox<N>>,
}

/// `a = 1` of `function f(a = 1) {}`. ECMA-262, section 15.1.
#[derive(Drop)]
pub struct Param<N = AnyNode> {
    pub span: Span,
    /// TypeScript: `@a` of `class A { b(@a c) {} }`.
    pub decorators: Vec<Decorator<N>>,
    /// `a = 1` of `function f(a = 1) {}`.
    pub pat: Pat<N>,
}

/// `@a` of `@a class B {}`. A proposal, not in ECMA-262, 2024 edition.
#[derive(Drop)]
pub struct Decorator<N = AnyNode> {
    pub span: Span,
    /// `a()` of `@a() class B {}`.
    pub expr: ExprBox<N>,
}
