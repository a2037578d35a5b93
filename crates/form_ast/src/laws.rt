//! Laws of the definitions, each the contract of a function that does nothing.

ghost use Rattle.std.specs.Prelude.{◌≡◌, All, IfSome, List, Option, Some};
ghost use Rattle.form_base.specs.declared.block.Action.TheVariants as acting;
ghost use Rattle.form_ast.specs.Building.{tree_of};
ghost use Rattle.form_ast.specs.Lawful.{IsLawfulAction, IsLawfulBlock, IsLawfulBranch, IsLawfulModule, IsLawfulPart};
ghost use Rattle.form_ast.specs.Syntax.{Sum, pieces_of_sum};
ghost use Rattle.form_ast.specs.Written.{WrittenAction, WrittenBranch};
ghost use Rattle.form_ast.specs.declared.module.PlacedPart.{PlacedPart};
ghost use Rattle.form_ast.specs.declared.picked.Picked.{Picked};

/// Pieces are those of one tree at most, and this is found.
pub fn one_tree()
    ensures one { (tree other : Sum) → pieces_of_sum tree ≡ pieces_of_sum other → tree ≡ other }
    ensures found { (tree : Sum) → tree_of (pieces_of_sum tree) ≡ Some tree }
{}

/// What is lawful of a tree of statements is so of its blocks.
pub fn parts_are_lawful()
    ensures repeated { (block : List WrittenAction) → IsLawfulAction (acting.Repeat block) → IsLawfulBlock block }
    ensures within { (functions : List Picked) (block : List WrittenAction) → IsLawfulAction (acting.Within functions block) → IsLawfulBlock block }
    ensures chosen { (branches : List WrittenBranch) (last : Option (List WrittenAction)) → IsLawfulAction (acting.Choose branches last) → All IsLawfulBranch branches × IfSome last IsLawfulBlock }
    ensures parts { (parts : List PlacedPart) → IsLawfulModule parts → All IsLawfulPart parts }
{}
