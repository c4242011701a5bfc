//! Laws of the maps: what a clause of a change comes to.

ghost use Rattle.std.specs.Prelude.{◌≡◌};
ghost use Rattle.swc_ecma_codegen_tree.specs.declared.idents.Ident.{Ident};
ghost use Rattle.swc_ecma_codegen_tree.specs.declared.links.AnyNode.{AnyNode, AnyNode-F, map-AnyNode};
ghost use Rattle.swc_ecma_codegen_tree.specs.declared.exprs.Expr.{Expr};
ghost use Rattle.swc_ecma_codegen_tree.specs.declared.stmts.Stmt.{Stmt};
ghost use Rattle.swc_ecma_codegen_tree.specs.declared.programs.ModuleItem.{ModuleItem};
ghost use Rattle.swc_ecma_codegen_tree.specs.declared.programs.Program.{Program};
ghost use Rattle.swc_ecma_codegen_visit.specs.Changed.{each_ident};
ghost use Rattle.swc_ecma_codegen_visit.specs.Mapped.{map_layer, map_node};
ghost use Rattle.swc_ecma_codegen_visit.specs.MappedExprs.{map_expr};
ghost use Rattle.swc_ecma_codegen_visit.specs.MappedModules.{map_module_item, map_program};
ghost use Rattle.swc_ecma_codegen_visit.specs.MappedStmts.{map_stmt};

/// A node over what its links hold as something else, said by cases, is what the kit derives of the
/// type.
pub fn layers_are_mapped()
    ensures { (f : AnyNode → AnyNode) (n : AnyNode-F AnyNode)
        → map_layer (λ x. x) f n ≡ map-AnyNode AnyNode AnyNode f n }
{}

/// What has the same names and holds the same is the same.
pub fn nothing_is_changed()
    ensures node { (n : AnyNode) → map_node (λ x. x) (λ x. x) n ≡ n }
    ensures expr { (n : Expr AnyNode) → map_expr (λ x. x) (λ x. x) n ≡ n }
    ensures stmt { (n : Stmt AnyNode) → map_stmt (λ x. x) (λ x. x) n ≡ n }
    ensures item { (n : ModuleItem AnyNode) → map_module_item (λ x. x) (λ x. x) n ≡ n }
    ensures program { (n : Program AnyNode) → map_program (λ x. x) (λ x. x) n ≡ n }
{}

/// A tree with each name as something else has its own names so, and those of what its links hold.
pub fn each_name_is_changed()
    ensures { (g : Ident → Ident) (n : AnyNode) → each_ident g n ≡ map_node g (each_ident g) n }
{}
