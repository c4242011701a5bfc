//! Laws for callers. Each is the contract of a function without parameters that does nothing: a
//! proof cites the function, and a program has no need to call it.
//!
//! They speak of the core of the grammar, of which `is_core` of `swc_ecma_codegen_syntax` tells:
//! ECMA-262, 2024, with its section B.3.3 and with JSX, but for names that are spelled with
//! escapes.

ghost use Rattle.std.specs.Prelude.{◌≡◌, ◌⊎◌, ℕ, true, false, List, ◌∷◌, ◌++◌, codes};
ghost use Rattle.swc_ecma_codegen_tree.specs.declared.exprs.Expr.{Expr};
ghost use Rattle.swc_ecma_codegen_tree.specs.declared.links.AnyNode.{AnyNode};
ghost use Rattle.swc_ecma_codegen_tree.specs.declared.programs.Program.{Program};
ghost use Rattle.swc_ecma_codegen_grammar.specs.Phrases.{Generates};
ghost use Rattle.swc_ecma_codegen_grammar.specs.Settings.{Settings};
ghost use Rattle.swc_ecma_codegen_grammar.specs.TreePhrases.{expr_phrase, program_phrase};
ghost use Rattle.swc_ecma_codegen_grammar.specs.Reads.{Reads};
ghost use Rattle.swc_ecma_codegen_grammar.specs.Tokens.{Token, ending, punctuator};
ghost use Rattle.swc_ecma_codegen_grammar.specs.Trivia.{Remark};
ghost use Rattle.swc_ecma_codegen_grammar.specs.declared.kinds.Kind.TheVariants.{Regex, TemplateRest};
ghost use Rattle.swc_ecma_codegen_grammar.specs.declared.kinds.TemplatePart.{TemplatePart};
ghost use Rattle.swc_ecma_codegen_syntax.specs.declared.nonterminals.Nonterminal.TheVariants.{Expression};
ghost use Rattle.swc_ecma_codegen_syntax.specs.declared.parameters.Parameters.{Parameters as Given};
ghost use Rattle.swc_ecma_codegen_syntax.specs.Derives.{DerivesCoreExpr, DerivesCoreProgram, bare_phrase, expr_verdict, program_verdict};
ghost use Rattle.swc_ecma_codegen_syntax.specs.ExprForms.{expr_form};
ghost use Rattle.swc_ecma_codegen_syntax.specs.Verdicts.{core, holds_in};
ghost use Rattle.swc_ecma_codegen_uniqueness.specs.ParseTrees.{AreCommasAndParentheses, Node, ParseTree, End, expr_variant, settled, tokens_of};
ghost use Rattle.swc_ecma_codegen_uniqueness.specs.Parses.{expr_before, expr_parse, form_parse, parse, program_parse};
ghost use Rattle.swc_ecma_codegen_uniqueness.specs.Parting.{Parting};
ghost use Rattle.swc_ecma_codegen_uniqueness.specs.Words.{as_names, with_names};

/// The parse tree of an expression is a node round what its production says, wherever the
/// expression stands.
#[tactic(auto, using(crate::proofs::ParseLaws::expr_parse_at))]
pub fn parse_trees_go_by_productions()
    ensures { (s : Settings) (c : Given) (a : Expr AnyNode) (rest : ParseTree) →
        expr_before s c a rest
        ≡ Node (expr_variant a) (form_parse (parse s) s (expr_form false false c a) End) rest }
{}

/// The tokens that are derived with an expression are those of its parse tree, in order, and
/// between them commas and parentheses that syntax leaves open, as in `[a,] = b` and `(a) => b`.
/// ECMA-262, section 13.
#[tactic(auto, using(crate::proofs::Unique::parse_tokens))]
pub fn parse_trees_have_their_tokens()
    ensures { (s : Settings) (c : Given) (a : Expr AnyNode) (ts : List Token)
        → DerivesCoreExpr s Expression c a ts
        → (p : ParseTree) × (settled p ≡ expr_parse s c a) × AreCommasAndParentheses p
        × ((us : List Token) → tokens_of p us ≡ ts ++ us) }
{}

/// If one list of tokens is derived with two expressions, they have one parse tree: the same nodes
/// round the same tokens. So whoever reads the tokens by the grammar gets the expression that they
/// were printed of.
///
/// `a + b * c` isn't read as the product of `a + b` and `c`, `new a().b` not as `new (a().b)`,
/// `a?.b.c` not as a member of `(a?.b)`, `(a, b) => c` not as a sequence, and `else` goes with the
/// `if` next before it. A pattern has the parse tree of the expression that covers it. Words of the
/// grammar and names are different tokens here: the word `yield` isn't the name `yield`. ECMA-262,
/// sections 13 to 15.
#[tactic(auto, using(crate::proofs::Unique::one_parse))]
pub fn tokens_tell_the_tree()
    ensures { (s t : Settings) (c e : Given) (a b : Expr AnyNode) (ts : List Token)
        → DerivesCoreExpr s Expression c a ts → DerivesCoreExpr t Expression e b ts
        → expr_parse s c a ≡ expr_parse t e b }
{}

/// Two expressions for which `keeps_structure_expr` answers true, whose productions are of the
/// core, and which read as the same tokens, have one parse tree. The tokens are those of the trees,
/// without what syntax leaves open, as a comma before the bracket that closes a pattern.
#[tactic(auto, using(crate::proofs::Unique::kept_told))]
pub fn kept_trees_are_told()
    ensures { (s t : Settings) (c e : Given) (a b : Expr AnyNode) (ts : List Token)
        → holds_in core (expr_verdict Expression c a) ≡ true → s.minify ≡ c.minify
        → holds_in core (expr_verdict Expression e b) ≡ true → t.minify ≡ e.minify
        → Generates s (bare_phrase (expr_phrase a)) ts
        → Generates t (bare_phrase (expr_phrase b)) ts
        → expr_parse s c a ≡ expr_parse t e b }
{}

/// If one list of tokens is derived with two programs, they have one parse tree.
///
/// `if (a) if (b) c; else d;` isn't read with `else` of the first `if`, nor `a` and `++b;` as `a++`
/// and `b;`: `[no LineTerminator here]` is a token. So whoever reads the tokens by the grammar gets
/// the program that they were printed of. An item of a module has no node of its own in its parse
/// tree, nor has a declaration that is exported or stands in the head of a `for`, or an element of
/// JSX that isn't between tags. `class A { a = (b, c); }` is derived with a Paren round the
/// sequence, and with no field whose value is the sequence. ECMA-262, section 16.
#[tactic(auto, using(crate::proofs::Programs::one_program))]
pub fn tokens_tell_the_program()
    ensures { (s t : Settings) (a b : Program AnyNode) (ts : List Token)
        → DerivesCoreProgram s a ts → DerivesCoreProgram t b ts
        → program_parse s a ≡ program_parse t b }
{}

/// Two programs for which `keeps_structure` and `is_core` answer true, and which read as the same
/// tokens, have one parse tree. The tokens are those of the trees, without what syntax leaves open.
#[tactic(auto, using(crate::proofs::Programs::kept_program))]
pub fn kept_programs_are_told()
    ensures { (s t : Settings) (a b : Program AnyNode) (ts : List Token)
        → holds_in core (program_verdict a) ≡ true → holds_in core (program_verdict b) ≡ true
        → Generates s (bare_phrase (program_phrase a)) ts
        → Generates t (bare_phrase (program_phrase b)) ts
        → program_parse s a ≡ program_parse t b }
{}

/// The tokens that are derived with a program are those of its parse tree, in order, and between
/// them commas and parentheses that syntax leaves open.
#[tactic(auto, using(crate::proofs::Programs::program_tokens))]
pub fn program_trees_have_their_tokens()
    ensures { (s : Settings) (a : Program AnyNode) (ts : List Token)
        → DerivesCoreProgram s a ts
        → (p : ParseTree) × (settled p ≡ program_parse s a) × AreCommasAndParentheses p
        × ((us : List Token) → tokens_of p us ≡ ts ++ us) }
{}

/// Words that are names too needn't be told from names: `as`, `from`, `get`, `meta`, `of`, `set`,
/// `static` and `target`. If two lists of tokens are the same once each such word is taken for the
/// name, the two expressions that they are derived with have parse trees that are the same once it
/// is.
///
/// `{ get a() {} }` isn't read as a method `get`, nor `{ get() {} }` as a getter. Other words are
/// told from names still: `async`, `let`, `yield`, `await`, `constructor`, and those that are
/// reserved. ECMA-262, section 12.7.
#[tactic(auto, using(crate::proofs::Unique::one_parse_named))]
pub fn names_tell_the_tree()
    ensures { (s t : Settings) (c e : Given) (a b : Expr AnyNode) (ts us : List Token)
        → DerivesCoreExpr s Expression c a ts → DerivesCoreExpr t Expression e b us
        → as_names ts ≡ as_names us
        → with_names (expr_parse s c a) ≡ with_names (expr_parse t e b) }
{}

/// Of two programs these eight words needn't be told from names either. `for (a of b) c` isn't read
/// as a declaration of `of`, `class A { static a = b; }` not as one field `static` and another, and
/// `import a from "b";` has no second name.
#[tactic(auto, using(crate::proofs::Programs::one_program_named))]
pub fn names_tell_the_program()
    ensures { (s t : Settings) (a b : Program AnyNode) (ts us : List Token)
        → DerivesCoreProgram s a ts → DerivesCoreProgram t b us
        → as_names ts ≡ as_names us
        → with_names (program_parse s a) ≡ with_names (program_parse t b) }
{}

/// Nor need they be told from names of two programs for which `keeps_structure` answers true. The
/// tokens are those of the trees, without what syntax leaves open.
#[tactic(auto, using(crate::proofs::Programs::kept_program_named))]
pub fn kept_programs_are_told_by_names()
    ensures { (s t : Settings) (a b : Program AnyNode) (ts us : List Token)
        → holds_in core (program_verdict a) ≡ true
        → holds_in core (program_verdict b) ≡ true
        → Generates s (bare_phrase (program_phrase a)) ts
        → Generates t (bare_phrase (program_phrase b)) us
        → as_names ts ≡ as_names us
        → with_names (program_parse s a) ≡ with_names (program_parse t b) }
{}

/// The tokens before a `/` tell whether it divides or begins a regular expression: no two programs
/// are derived with lists that are the same up to a token, which is a regular expression in one,
/// and `/` or `/=` in the other. So a parser that has read `a = b` takes `/c/g` for two divisions,
/// and behind `a =` for a regular expression. ECMA-262, section 12.
#[tactic(auto, using(crate::proofs::Texts::one_goal))]
pub fn tokens_tell_a_division()
    ensures { (s t : Settings) (a b : Program AnyNode) (xs ys zs : List Token) (x y : Token)
        → x.kind ≡ Regex → (y ≡ punctuator (codes "/")) ⊎ (y ≡ punctuator (codes "/="))
        → DerivesCoreProgram s a (xs ++ (x ∷ ys)) → DerivesCoreProgram t b (xs ++ (y ∷ zs)) → ⊥ }
{}

/// The tokens before a `}` tell whether it closes what `{` opened or goes on with a template: no
/// two programs are derived with lists that are the same up to a token, which is the middle or the
/// end of a template in one, and `}` in the other. ECMA-262, section 12.
#[tactic(auto, using(crate::proofs::Texts::one_template))]
pub fn tokens_tell_the_rest_of_a_template()
    ensures { (s t : Settings) (a b : Program AnyNode) (xs ys zs : List Token) (x y : Token)
        (part : TemplatePart) → x.kind ≡ TemplateRest part → y ≡ punctuator (codes "}")
        → DerivesCoreProgram s a (xs ++ (x ∷ ys)) → DerivesCoreProgram t b (xs ++ (y ∷ zs)) → ⊥ }
{}

/// The tokens before a `;` tell whether it ends a statement, or is an empty statement or stands in
/// the head of a `for`: no two programs are derived with lists that are the same up to a token,
/// which is the one in one list, and the other in the other. So `do a; while (b);` has no empty
/// statement at its end, and `for (a; b; c);` has one. ECMA-262, section 12.10.
#[tactic(auto, using(crate::proofs::Texts::one_semicolon))]
pub fn tokens_tell_an_empty_statement()
    ensures { (s t : Settings) (a b : Program AnyNode) (xs ys zs : List Token) (x y : Token)
        → x ≡ punctuator (codes ";") → y ≡ ending
        → DerivesCoreProgram s a (xs ++ (x ∷ ys)) → DerivesCoreProgram t b (xs ++ (y ∷ zs)) → ⊥ }
{}

/// Two programs whose lists of tokens one text reads as have one parse tree, words taken for names;
/// or the lists part at a place where the tokens before don't tell what comes: one of the words
/// `async`, `await`, `constructor`, `let` and `yield` in one list, and the name of its letters in
/// the other. `[no LineTerminator here]`, which is no text, they have at the same places up to
/// there.
///
/// So whoever reads a text needs no goal symbol of the lexical grammar: `a / b / c` is two
/// divisions, whatever a lexer takes `/ b /` for, since no program has the tokens `a`, `/ b /` and
/// `c`. ECMA-262, section 12.
#[tactic(auto, using(crate::proofs::Texts::one_text))]
pub fn texts_tell_the_program()
    ensures { (s t : Settings) (a b : Program AnyNode) (xs ys : List Token) (text : List ℕ)
        (cs ds : List Remark) → DerivesCoreProgram s a xs → DerivesCoreProgram t b ys
        → Reads text xs cs → Reads text ys ds
        → ((as_names xs ≡ as_names ys) × (with_names (program_parse s a) ≡ with_names (program_parse t b)))
        ⊎ Parting (as_names xs) (as_names ys) }
{}

/// Two expressions whose lists of tokens one text reads as have one parse tree, words taken for
/// names; or the lists part as those of programs do.
#[tactic(auto, using(crate::proofs::Texts::one_text_of_exprs))]
pub fn texts_tell_the_tree()
    ensures { (s t : Settings) (c e : Given) (a b : Expr AnyNode) (xs ys : List Token)
        (text : List ℕ) (cs ds : List Remark)
        → DerivesCoreExpr s Expression c a xs → DerivesCoreExpr t Expression e b ys
        → Reads text xs cs → Reads text ys ds
        → ((as_names xs ≡ as_names ys) × (with_names (expr_parse s c a) ≡ with_names (expr_parse t e b)))
        ⊎ Parting (as_names xs) (as_names ys) }
{}
