//! Laws of layouts where there are no comments: what minifying, and what the source text, may
//! change in the tokens.

ghost use Rattle.std.specs.Prelude.{◌≡◌, ◌⊎◌, ℕ, Bool, true, false, ◌||◌, if◌then◌else◌, List, ◌∷◌, codes};
ghost use Rattle.swc_ecma_codegen_common.specs.declared.positions.Span.{Span};
ghost use Rattle.swc_ecma_codegen_grammar.specs.CommentMaps.{Maps};
ghost use Rattle.swc_ecma_codegen_grammar.specs.Comments.{no_maps};
ghost use Rattle.swc_ecma_codegen_grammar.specs.SourceLines.{Lines};
ghost use Rattle.swc_ecma_codegen_grammar.specs.declared.kinds.Kind.{Kind};
ghost use Rattle.swc_ecma_codegen_settings.specs.declared.config.Config.{Config};
ghost use Rattle.swc_ecma_codegen_tree.specs.declared.links.AnyNode.{AnyNode};
ghost use Rattle.swc_ecma_codegen_common.specs.Refusals.{in_short};
ghost use Rattle.swc_ecma_codegen_tokens.specs.Run.{Env, Follows, Plan, State, nothing};
ghost use Rattle.swc_ecma_codegen_emit.specs.Emission.{Outcome};
ghost use Rattle.swc_ecma_codegen_emit.specs.Answers.{any_answers};
ghost use Rattle.swc_ecma_codegen_emit.specs.Exprs.{blank, yield_argument};
ghost use Rattle.swc_ecma_codegen_emit.specs.Roots.{Root, root_items};
ghost use Rattle.swc_ecma_codegen_emit.specs.Stmts.{argument, spaced};
ghost use Rattle.swc_ecma_codegen_emit.specs.Tree.{any_items};
ghost use Rattle.swc_ecma_codegen_emit.specs.declared.nodes.Context.TheVariants.{Plain};
ghost use Rattle.swc_ecma_codegen_emit.specs.Places.{Whole};
ghost use Rattle.swc_ecma_codegen_laws.specs.PlainTexts.{ReadsPlainly};
ghost use Rattle.swc_ecma_codegen_laws.specs.Layouts.{DifferByLayout, DifferInCommas, IsWhole, LeavesArguments, Tokens, begins_arrow, holds_new_or_arrow, is_new, laid_out, mark, new_word, opens, over, parentheses, stop_of, tokens_of, without_commas};

/// Minified or not, an emission without comments writes the same tokens, but for the spelling of
/// literals, and for what is left out where it is minified: a comma before the `}` of a pattern,
/// parentheses round the name that is the only parameter of an arrow function, and the empty
/// arguments of `new`: `(a) => new B();` and `a=>new B;`. Semicolons are among these tokens: which
/// of them a writer leaves out that holds them back, and that literals have the same values,
/// `layouts_keep_the_tokens` says. Both come to the same node that can't be printed, or to none.
pub fn layouts_write_the_same_tokens()
    ensures tokens { (root : Root) (env : Env) → env.maps ≡ no_maps →
        IsWhole root (laid_out true env) →
        DifferByLayout (laid_out true env).config (laid_out false env).config
        (tokens_of root (laid_out true env)) (tokens_of root (laid_out false env)) }
    ensures stop { (root : Root) (env : Env) → env.maps ≡ no_maps →
        stop_of root (laid_out true env) ≡ stop_of root (laid_out false env) }
{}

/// Over another source text an emission without comments writes the same tokens, each spelled as it
/// was, but for a comma before the `]` or `}` that closes a list; and where its map answers the
/// same snippets, the very same, whatever it answers on lines. Both come to the same node that
/// can't be printed, or to none.
pub fn source_texts_write_the_same_tokens()
    ensures commas { (root : Root) (env : Env) (lines : Lines) → env.maps ≡ no_maps →
        IsWhole root env →
        DifferInCommas env.config (tokens_of root env) (tokens_of root (over lines env)) }
    ensures snippets { (root : Root) (env : Env) (lines : Lines) → env.maps ≡ no_maps →
        ((span : Span) → env.lines.snippet span ≡ lines.snippet span) → IsWhole root env →
        tokens_of root env ≡ tokens_of root (over lines env) }
    ensures stop { (root : Root) (env : Env) (lines : Lines) → env.maps ≡ no_maps →
        stop_of root env ≡ stop_of root (over lines env) }
{}

/// Without comments no parentheses stand round what is returned, thrown or yielded, minified or
/// not: behind the word comes a blank, where one is due, and what is written of the node by itself:
/// `return a`, `yield[a]`. With comments, whether they stand there, as the node answers, hangs on
/// the comments before nodes alone that are still to be written: neither on lines nor on the
/// layout.
pub fn arguments_stand_bare()
    ensures returned { (node : AnyNode) (rest : Plan) (env : Env) → env.maps ≡ no_maps →
        argument any_answers any_items node rest env
        ≡ spaced any_answers any_items node rest env }
    ensures yielded { (node : AnyNode) (delegate : Bool) (rest : Plan) (env : Env) →
        env.maps ≡ no_maps →
        yield_argument any_answers any_items delegate node rest env
        ≡ blank (if delegate then false else (any_answers node).starts)
        (any_items node (Whole Plain) rest) env }
    ensures comments { (node : AnyNode) (maps other : Maps) → maps.leading ≡ other.leading →
        (any_answers node).breaks maps ≡ (any_answers node).breaks other }
{}

/// What lists have in common that differ by layout. Where both begin with the same token, other
/// than `new`, a `(` that is the second token of the second list is that of the first too, or the
/// first has one token there and then `=>`: `return (a)` and `return a` don't differ so, nor `f()`
/// and `f`. Where the first holds neither `new` nor `=>`, both have the same parentheses, in order.
/// Where both begin with `new`, what stands behind it differs by layout, or the second alone has
/// `()`: right behind the node that one `new` calls, and its types, and not behind any tokens. And
/// lists that differ in commas are the same without them: no map of a source text decides on
/// parentheses.
pub fn other_parentheses_stand_in_both()
    ensures layouts { (s t : Config) (x : Kind × List ℕ) (xs ys : Tokens) → is_new x ≡ false →
        DifferByLayout s t (x ∷ xs) (x ∷ mark (codes "(") ∷ ys) →
        (opens xs || begins_arrow xs) ≡ true }
    ensures elsewhere { (s t : Config) (xs ys : Tokens) → DifferByLayout s t xs ys →
        holds_new_or_arrow xs ≡ false → parentheses xs ≡ parentheses ys }
    ensures arguments { (s t : Config) (xs ys : Tokens) →
        DifferByLayout s t (new_word ∷ xs) (new_word ∷ ys) →
        DifferByLayout s t xs ys ⊎ LeavesArguments s t xs ys }
    ensures sources { (s : Config) (xs ys : Tokens) → DifferInCommas s xs ys →
        without_commas xs ≡ without_commas ys }
{}

/// Where there are neither comments nor a source text, what a new emitter adds to the text of a
/// well-formed tree reads as one list, that which adds nothing: no comma stands before a closing
/// mark, no parentheses stand round what is returned, thrown or yielded, and round the only
/// parameter of an arrow function they stand where it isn't minified. Lines have no greatest
/// length. Where the tree is a program that keeps its structure, this list is derived with it, as
/// `plain_lists_are_derived` says.
#[tactic(auto, using(crate::proofs::PlainTexts::root_reads_plain))]
pub fn plain_texts_read_plainly()
    ensures { (root : Root) (a b : State) (answer : Outcome) →
        Follows (root_items root nothing) a b (in_short answer) → ReadsPlainly root a b answer }
{}
