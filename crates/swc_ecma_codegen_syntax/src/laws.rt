//! Laws of the productions: each is the contract of a function that does nothing.

ghost use Rattle.std.specs.Prelude.{◌≡◌, Bool, true, false};
ghost use Rattle.swc_ecma_codegen_grammar.specs.Phrases.{Phrase};
ghost use Rattle.swc_ecma_codegen_grammar.specs.AssignPhrases.{assign_target};
ghost use Rattle.swc_ecma_codegen_grammar.specs.CallPhrases.{array_lit, call_expr, new_expr, chain_call};
ghost use Rattle.swc_ecma_codegen_grammar.specs.ExprPhrases.{expr, unary_expr, update_expr, bin_expr, cond_expr, assign_expr, yield_expr, await_expr, seq_expr, paren_expr, member_expr, super_prop_expr, chain_member, opt_chain_expr};
ghost use Rattle.swc_ecma_codegen_grammar.specs.KeyPhrases.{prop_name};
ghost use Rattle.swc_ecma_codegen_grammar.specs.LitPhrases.{lit};
ghost use Rattle.swc_ecma_codegen_grammar.specs.NamePhrases.{ident};
ghost use Rattle.swc_ecma_codegen_grammar.specs.PatPhrases.{pat, assign_target_pat};
ghost use Rattle.swc_ecma_codegen_grammar.specs.PropPhrases.{object_lit};
ghost use Rattle.swc_ecma_codegen_grammar.specs.DeclPhrases.{var_decl, fn_decl};
ghost use Rattle.swc_ecma_codegen_grammar.specs.ModulePhrases.{module_decl};
ghost use Rattle.swc_ecma_codegen_grammar.specs.StmtPhrases.{stmt, block_stmt, module_item, program};
ghost use Rattle.swc_ecma_codegen_grammar.specs.TemplatePhrases.{tpl, tagged_tpl};
ghost use Rattle.swc_ecma_codegen_grammar.specs.declared.roles.Role.{Role};
ghost use Rattle.swc_ecma_codegen_syntax.specs.declared.nonterminals.Nonterminal.{Nonterminal as Place};
ghost use Rattle.swc_ecma_codegen_syntax.specs.declared.parameters.Parameters.{Parameters as Given};
ghost use Rattle.swc_ecma_codegen_syntax.specs.Summary.{Summary};
ghost use Rattle.swc_ecma_codegen_syntax.specs.Forms.{forget, keeps};
ghost use Rattle.swc_ecma_codegen_syntax.specs.Nonterminals.{takes};
ghost use Rattle.swc_ecma_codegen_syntax.specs.UnitProductions.{Chain};
ghost use Rattle.swc_ecma_codegen_syntax.specs.Verdicts.{Grammar};
ghost use Rattle.swc_ecma_codegen_syntax.specs.NameForms.{name_form, lit_form};
ghost use Rattle.swc_ecma_codegen_syntax.specs.MemberForms.{member_form, super_prop_form, tagged_form, chain_member_form, opt_chain_form};
ghost use Rattle.swc_ecma_codegen_syntax.specs.CallForms.{array_form, call_form, new_form, chain_call_form};
ghost use Rattle.swc_ecma_codegen_syntax.specs.TemplateForms.{tpl_form};
ghost use Rattle.swc_ecma_codegen_syntax.specs.ObjectForms.{prop_name_form, object_form};
ghost use Rattle.swc_ecma_codegen_syntax.specs.PatForms.{pat_form};
ghost use Rattle.swc_ecma_codegen_syntax.specs.TargetForms.{target_form, target_pat_form};
ghost use Rattle.swc_ecma_codegen_syntax.specs.DeclForms.{var_decl_form};
ghost use Rattle.swc_ecma_codegen_syntax.specs.StmtForms.{stmt_form, block_form};
ghost use Rattle.swc_ecma_codegen_syntax.specs.JsxForms.{element_form, fragment_form, tag_object_form};
ghost use Rattle.swc_ecma_codegen_syntax.specs.ModuleForms.{module_decl_form, item_form, program_form};
ghost use Rattle.swc_ecma_codegen_syntax.specs.ExprForms.{unary_form, update_form, bin_form, cond_form, assign_form, yield_form, await_form, seq_form, paren_form, expr_form};
ghost use Rattle.swc_ecma_codegen_grammar.specs.JsxPhrases.{jsx_element, jsx_fragment, jsx_object};
ghost use Rattle.swc_ecma_codegen_tree.specs.declared.jsx.JSXElement.{JSXElement};
ghost use Rattle.swc_ecma_codegen_tree.specs.declared.jsx.JSXFragment.{JSXFragment};
ghost use Rattle.swc_ecma_codegen_tree.specs.declared.jsx.JSXObject.{JSXObject};
ghost use Rattle.swc_ecma_codegen_tree.specs.declared.idents.Ident.{Ident};
ghost use Rattle.swc_ecma_codegen_tree.specs.declared.lits.Lit.{Lit};
ghost use Rattle.swc_ecma_codegen_tree.specs.declared.exprs.ArrayLit.{ArrayLit};
ghost use Rattle.swc_ecma_codegen_tree.specs.declared.exprs.AssignExpr.{AssignExpr};
ghost use Rattle.swc_ecma_codegen_tree.specs.declared.exprs.AwaitExpr.{AwaitExpr};
ghost use Rattle.swc_ecma_codegen_tree.specs.declared.exprs.BinExpr.{BinExpr};
ghost use Rattle.swc_ecma_codegen_tree.specs.declared.exprs.CallExpr.{CallExpr};
ghost use Rattle.swc_ecma_codegen_tree.specs.declared.exprs.CondExpr.{CondExpr};
ghost use Rattle.swc_ecma_codegen_tree.specs.declared.exprs.Expr.{Expr};
ghost use Rattle.swc_ecma_codegen_tree.specs.declared.exprs.MemberExpr.{MemberExpr};
ghost use Rattle.swc_ecma_codegen_tree.specs.declared.exprs.NewExpr.{NewExpr};
ghost use Rattle.swc_ecma_codegen_tree.specs.declared.exprs.ObjectLit.{ObjectLit};
ghost use Rattle.swc_ecma_codegen_tree.specs.declared.exprs.OptCall.{OptCall};
ghost use Rattle.swc_ecma_codegen_tree.specs.declared.exprs.OptChainExpr.{OptChainExpr};
ghost use Rattle.swc_ecma_codegen_tree.specs.declared.exprs.ParenExpr.{ParenExpr};
ghost use Rattle.swc_ecma_codegen_tree.specs.declared.exprs.PropName.{PropName};
ghost use Rattle.swc_ecma_codegen_tree.specs.declared.exprs.SeqExpr.{SeqExpr};
ghost use Rattle.swc_ecma_codegen_tree.specs.declared.exprs.SuperPropExpr.{SuperPropExpr};
ghost use Rattle.swc_ecma_codegen_tree.specs.declared.exprs.TaggedTpl.{TaggedTpl};
ghost use Rattle.swc_ecma_codegen_tree.specs.declared.exprs.Tpl.{Tpl};
ghost use Rattle.swc_ecma_codegen_tree.specs.declared.exprs.UnaryExpr.{UnaryExpr};
ghost use Rattle.swc_ecma_codegen_tree.specs.declared.exprs.UpdateExpr.{UpdateExpr};
ghost use Rattle.swc_ecma_codegen_tree.specs.declared.exprs.YieldExpr.{YieldExpr};
ghost use Rattle.swc_ecma_codegen_tree.specs.declared.pats.AssignTarget.{AssignTarget};
ghost use Rattle.swc_ecma_codegen_tree.specs.declared.pats.AssignTargetPat.{AssignTargetPat};
ghost use Rattle.swc_ecma_codegen_tree.specs.declared.pats.Pat.{Pat};
ghost use Rattle.swc_ecma_codegen_tree.specs.declared.decls.VarDecl.{VarDecl};
ghost use Rattle.swc_ecma_codegen_tree.specs.declared.programs.ModuleDecl.{ModuleDecl};
ghost use Rattle.swc_ecma_codegen_tree.specs.declared.programs.ModuleItem.{ModuleItem};
ghost use Rattle.swc_ecma_codegen_tree.specs.declared.programs.Program.{Program};
ghost use Rattle.swc_ecma_codegen_tree.specs.declared.stmts.BlockStmt.{BlockStmt};
ghost use Rattle.swc_ecma_codegen_tree.specs.declared.stmts.Stmt.{Stmt};
ghost use Rattle.swc_ecma_codegen_grammar.specs.FunctionPhrases.{fn_expr, function, arrow_expr};
ghost use Rattle.swc_ecma_codegen_grammar.specs.ClassPhrases.{class_expr, class_decl, accessor_tail, method_tail, class_tail, class_member};
ghost use Rattle.swc_ecma_codegen_syntax.specs.FunctionForms.{fn_expr_form, fn_decl_form, function_form, rest_of_function, arrow_form};
ghost use Rattle.swc_ecma_codegen_syntax.specs.ClassForms.{class_expr_form, class_decl_form, accessor_form, class_tail_form, member_of_class_form};
ghost use Rattle.swc_ecma_codegen_tree.specs.declared.exprs.FnExpr.{FnExpr};
ghost use Rattle.swc_ecma_codegen_tree.specs.declared.exprs.ArrowExpr.{ArrowExpr};
ghost use Rattle.swc_ecma_codegen_tree.specs.declared.exprs.ClassExpr.{ClassExpr};
ghost use Rattle.swc_ecma_codegen_tree.specs.declared.decls.FnDecl.{FnDecl};
ghost use Rattle.swc_ecma_codegen_tree.specs.declared.decls.ClassDecl.{ClassDecl};
ghost use Rattle.swc_ecma_codegen_tree.specs.declared.decls.Function.{Function};
ghost use Rattle.swc_ecma_codegen_tree.specs.declared.classes.Class.{Class};
ghost use Rattle.swc_ecma_codegen_tree.specs.declared.classes.ClassMember.{ClassMember};

/// Without its nonterminals a production with operators is the one that says which tokens a tree
/// reads as.
#[tactic(auto, using(crate::proofs::EachForgets::name_law, crate::proofs::EachForgets::lit_law, crate::proofs::EachForgets::unary_law, crate::proofs::EachForgets::update_law, crate::proofs::EachForgets::bin_law, crate::proofs::EachForgets::cond_law, crate::proofs::EachForgets::assign_law, crate::proofs::EachForgets::yield_law, crate::proofs::EachForgets::await_law, crate::proofs::EachForgets::seq_law, crate::proofs::EachForgets::paren_law))]
pub fn operators_forget<N>()
    ensures name { (f : N → Role → Phrase) (c : Given) (n : Ident)
        → forget f (name_form c n) ≡ ident n }
    ensures lit { (f : N → Role → Phrase) (n : Lit) → forget f (lit_form n) ≡ lit n }
    ensures unary { (f : N → Role → Phrase) (c : Given) (n : UnaryExpr N)
        → forget f (unary_form c n) ≡ unary_expr f n }
    ensures update { (f : N → Role → Phrase) (c : Given) (n : UpdateExpr N)
        → forget f (update_form c n) ≡ update_expr f n }
    ensures bin { (f : N → Role → Phrase) (c : Given) (n : BinExpr N)
        → forget f (bin_form c n) ≡ bin_expr f n }
    ensures cond { (f : N → Role → Phrase) (c : Given) (n : CondExpr N)
        → forget f (cond_form c n) ≡ cond_expr f n }
    ensures assign { (f : N → Role → Phrase) (c : Given) (n : AssignExpr N)
        → forget f (assign_form c n) ≡ assign_expr f n }
    ensures yields { (f : N → Role → Phrase) (c : Given) (n : YieldExpr N)
        → forget f (yield_form c n) ≡ yield_expr f n }
    ensures awaits { (f : N → Role → Phrase) (c : Given) (n : AwaitExpr N)
        → forget f (await_form c n) ≡ await_expr f n }
    ensures seq { (f : N → Role → Phrase) (c : Given) (n : SeqExpr N)
        → forget f (seq_form c n) ≡ seq_expr f n }
    ensures paren { (f : N → Role → Phrase) (c : Given) (n : ParenExpr N)
        → forget f (paren_form c n) ≡ paren_expr f n }
{}

/// Without its nonterminals a production of members, calls, chains, `new`, arrays and templates is
/// the one that says which tokens a tree reads as.
#[tactic(auto, using(crate::proofs::Forgets::member_forgets, crate::proofs::Forgets::super_prop_forgets, crate::proofs::Forgets::chain_member_forgets, crate::proofs::Forgets::chain_forgets, crate::proofs::Forgets::chain_call_forgets, crate::proofs::Forgets::call_forgets, crate::proofs::Forgets::new_forgets, crate::proofs::Forgets::array_forgets, crate::proofs::Forgets::tpl_forgets, crate::proofs::Forgets::tagged_forgets))]
pub fn members_forget<N>()
    ensures member { (f : N → Role → Phrase) (place : Place) (c : Given) (n : MemberExpr N)
        → forget f (member_form place c n) ≡ member_expr f n }
    ensures super_prop { (f : N → Role → Phrase) (c : Given) (n : SuperPropExpr N)
        → forget f (super_prop_form c n) ≡ super_prop_expr f n }
    ensures chain_member { (f : N → Role → Phrase) (c : Given) (b : Bool) (n : MemberExpr N)
        → forget f (chain_member_form c b n) ≡ chain_member f b n }
    ensures chain { (f : N → Role → Phrase) (c : Given) (n : OptChainExpr N)
        → forget f (opt_chain_form c n) ≡ opt_chain_expr f n }
    ensures chain_call { (f : N → Role → Phrase) (c : Given) (b : Bool) (n : OptCall N)
        → forget f (chain_call_form c b n) ≡ chain_call f b n }
    ensures call { (f : N → Role → Phrase) (c : Given) (n : CallExpr N)
        → forget f (call_form c n) ≡ call_expr f n }
    ensures new { (f : N → Role → Phrase) (c : Given) (b : Bool) (n : NewExpr N)
        → forget f (new_form c b n) ≡ new_expr f b n }
    ensures array { (f : N → Role → Phrase) (c : Given) (n : ArrayLit N)
        → forget f (array_form c n) ≡ array_lit f n }
    ensures template { (f : N → Role → Phrase) (c : Given) (b : Bool) (n : Tpl N)
        → forget f (tpl_form c b n) ≡ tpl f b n }
    ensures tagged { (f : N → Role → Phrase) (place : Place) (c : Given) (n : TaggedTpl N)
        → forget f (tagged_form place c n) ≡ tagged_tpl f n }
{}

/// Without its nonterminals a production of patterns and keys is the one that says which tokens a
/// tree reads as; so is that of objects, of targets and of any expression, where nothing in them
/// lacks a production.
#[tactic(auto, using(crate::proofs::Forgets::prop_name_forgets, crate::proofs::PatForgets::pat_forgets, crate::proofs::PatForgets::target_pat_forgets, crate::proofs::Forgets::object_forgets, crate::proofs::PatForgets::target_forgets, crate::proofs::ExprForgets::expr_forgets))]
pub fn parts_forget<N>()
    ensures key { (f : N → Role → Phrase) (c : Given) (n : PropName N)
        → forget f (prop_name_form c n) ≡ prop_name f n }
    ensures pattern { (f : N → Role → Phrase) (b : Bool) (c : Given) (n : Pat N)
        → forget f (pat_form b c n) ≡ pat f n }
    ensures target_pattern { (f : N → Role → Phrase) (b : Bool) (c : Given) (n : AssignTargetPat N)
        → forget f (target_pat_form b c n) ≡ assign_target_pat f n }
    ensures object { (p : Grammar) (t : N → Role → Given → Summary) (f : N → Role → Phrase)
        (c : Given) (n : ObjectLit N)
        → keeps p t (object_form c n) ≡ true
        → forget f (object_form c n) ≡ object_lit f n }
    ensures target { (b : Bool) (p : Grammar) (t : N → Role → Given → Summary)
        (f : N → Role → Phrase) (c : Given) (n : AssignTarget N)
        → keeps p t (target_form b c n) ≡ true
        → forget f (target_form b c n) ≡ assign_target f n }
    ensures expression { (p : Grammar) (t : N → Role → Given → Summary) (f : N → Role → Phrase)
        (b : Bool) (c : Given) (n : Expr N)
        → keeps p t (expr_form false b c n) ≡ true
        → forget f (expr_form false b c n) ≡ expr f n }
{}

/// Without its nonterminals a production of functions and arrow functions, and of their parts, is
/// the one that says which tokens a tree reads as.
#[tactic(auto, using(crate::proofs::FunctionForgets::fn_expr_forgets, crate::proofs::FunctionForgets::fn_decl_forgets, crate::proofs::FunctionForgets::function_forgets, crate::proofs::FunctionForgets::rest_forgets, crate::proofs::FunctionForgets::arrow_forgets))]
pub fn functions_forget<N>()
    ensures expression { (f : N → Role → Phrase) (c : Given) (n : FnExpr N)
        → forget f (fn_expr_form c n) ≡ fn_expr f n }
    ensures declaration { (f : N → Role → Phrase) (place : Place) (c : Given) (n : FnDecl N)
        → forget f (fn_decl_form place c n) ≡ fn_decl f n }
    ensures function { (f : N → Role → Phrase) (c : Given) (n : Function N)
        → forget f (function_form c n) ≡ function f n }
    ensures method { (f : N → Role → Phrase) (c : Given) (n : Function N)
        → forget f (rest_of_function c n) ≡ method_tail f n }
    ensures arrow { (f : N → Role → Phrase) (c : Given) (n : ArrowExpr N)
        → forget f (arrow_form c n) ≡ arrow_expr f n }
{}

/// Without its nonterminals a production of classes is the one that says which tokens a tree reads
/// as; so is that of what stands in them, where nothing in it lacks a production.
#[tactic(auto, using(crate::proofs::ClassForgets::class_expr_forgets, crate::proofs::ClassForgets::class_decl_forgets, crate::proofs::ClassForgets::accessor_forgets, crate::proofs::ClassForgets::class_tail_forgets, crate::proofs::ClassForgets::class_member_forgets))]
pub fn classes_forget<N>()
    ensures expression { (f : N → Role → Phrase) (c : Given) (n : ClassExpr N)
        → forget f (class_expr_form c n) ≡ class_expr f n }
    ensures declaration { (f : N → Role → Phrase) (c : Given) (n : ClassDecl N)
        → forget f (class_decl_form c n) ≡ class_decl f n }
    ensures accessor { (f : N → Role → Phrase) (c : Given) (n : Function N)
        → forget f (accessor_form c n) ≡ accessor_tail f n }
    ensures tail { (p : Grammar) (t : N → Role → Given → Summary) (f : N → Role → Phrase)
        (c : Given) (n : Class N)
        → keeps p t (class_tail_form c n) ≡ true
        → forget f (class_tail_form c n) ≡ class_tail f n }
    ensures member { (p : Grammar) (t : N → Role → Given → Summary) (f : N → Role → Phrase)
        (c : Given) (n : ClassMember N)
        → keeps p t (member_of_class_form c n) ≡ true
        → forget f (member_of_class_form c n) ≡ class_member f n }
{}

/// Without its nonterminals a production of JSX is the one that says which tokens a tree reads as:
/// of elements and fragments, the outermost or a child, and of names of members.
#[tactic(auto, using(crate::proofs::JsxForgets::element_forgets, crate::proofs::JsxForgets::fragment_forgets, crate::proofs::JsxForgets::tag_object_forgets))]
pub fn elements_forget<N>()
    ensures element { (f : N → Role → Phrase) (c : Given) (b : Bool) (n : JSXElement N)
        → forget f (element_form c b n) ≡ jsx_element f b n }
    ensures fragment { (f : N → Role → Phrase) (c : Given) (b : Bool) (n : JSXFragment N)
        → forget f (fragment_form c b n) ≡ jsx_fragment f b n }
    ensures object { (f : N → Role → Phrase) (c : Given) (n : JSXObject N)
        → forget f (tag_object_form c n) ≡ jsx_object f n }
{}

/// Without its nonterminals a production of statements, declarations of variables, blocks, items of
/// modules and programs is the one that says which tokens a tree reads as, where nothing in them
/// lacks a production.
#[tactic(auto, using(crate::proofs::StmtForgets::stmt_forgets, crate::proofs::StmtForgets::var_decl_forgets, crate::proofs::StmtForgets::block_forgets, crate::proofs::ModuleForgets::module_decl_forgets, crate::proofs::ModuleForgets::item_forgets, crate::proofs::ModuleForgets::program_forgets))]
pub fn statements_forget<N>()
    ensures statement { (p : Grammar) (t : N → Role → Given → Summary) (f : N → Role → Phrase)
        (c : Given) (n : Stmt N)
        → keeps p t (stmt_form c n) ≡ true
        → forget f (stmt_form c n) ≡ stmt f n }
    ensures variables { (p : Grammar) (t : N → Role → Given → Summary) (f : N → Role → Phrase)
        (c : Given) (n : VarDecl N)
        → keeps p t (var_decl_form c n) ≡ true
        → forget f (var_decl_form c n) ≡ var_decl f n }
    ensures block { (p : Grammar) (t : N → Role → Given → Summary) (f : N → Role → Phrase)
        (c : Given) (n : BlockStmt N)
        → keeps p t (block_form c n) ≡ true
        → forget f (block_form c n) ≡ block_stmt f n }
    ensures declaration { (p : Grammar) (t : N → Role → Given → Summary) (f : N → Role → Phrase)
        (c : Given) (n : ModuleDecl N)
        → keeps p t (module_decl_form c n) ≡ true
        → forget f (module_decl_form c n) ≡ module_decl f n }
    ensures item { (p : Grammar) (t : N → Role → Given → Summary) (f : N → Role → Phrase)
        (c : Given) (n : ModuleItem N)
        → keeps p t (item_form c n) ≡ true
        → forget f (item_form c n) ≡ module_item f n }
    ensures program { (p : Grammar) (m : Bool) (t : N → Role → Given → Summary)
        (f : N → Role → Phrase) (n : Program N)
        → keeps p t (program_form m n) ≡ true
        → forget f (program_form m n) ≡ program f n }
{}

/// One nonterminal takes another where a chain of unit productions leads from it to that one.
#[tactic(auto, using(crate::proofs::Chains::takes_chain, crate::proofs::Taken::chain_takes))]
pub fn unit_productions_are_taken()
    ensures chain { (a c : Place) → takes a c ≡ true → Chain a c }
    ensures takes { (a c : Place) → Chain a c → takes a c ≡ true }
{}
