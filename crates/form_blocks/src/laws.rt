//! Laws of the definitions, each the contract of a function that does nothing.

ghost use Rattle.std.specs.Prelude.{◌≡◌, ◌+◌, ◌≤◌, All, List, [], None, Option, Some, false, length, map};
ghost use Rattle.form_base.specs.declared.spot.Spot.{Spot};
ghost use Rattle.form_ast.specs.declared.statement.Placed.{Placed};
ghost use Rattle.form_ast.specs.Written.{parts_written, statement_of};
ghost use Rattle.form_blocks.specs.Blocks.{Read, Unfinished, and_read, fault_at_end, most_blocks, role_of};
ghost use Rattle.form_blocks.specs.Growing.{part_spot, parts_grown};
ghost use Rattle.form_blocks.specs.Nesting.{AreNested, HasOpenings, HaveRoom, IsOpening, all_read, alone, beginnings, in_blocks, read_on};
ghost use Rattle.form_blocks.specs.declared.role.Role.TheVariants as roles;

/// The statements of a module of which nothing is refused are nested, with no more blocks open behind any of them than may be.
pub fn what_is_read_is_nested()
    ensures { (readings : List (Spot × Option Read)) → All (λ (reading : Spot × Option Read). HasOpenings reading.1) readings → fault_at_end (all_read readings) ≡ None →
        AreNested (map statement_of (all_read readings).statements) × HaveRoom [] (map statement_of (all_read readings).statements) }
{}

/// Statements that are nested, with no more blocks open behind any of them than may be, are read as they stand, and nothing
/// of them is refused.
pub fn what_is_nested_is_read()
    ensures { (placed : List Placed) → AreNested (map statement_of placed) → HaveRoom [] (map statement_of placed) →
        (fault_at_end (all_read (map alone placed)) ≡ None) × ((all_read (map alone placed)).statements ≡ placed) }
{}

/// A statement that stands behind `repeat`s and `if`s in one line is read as if it stood in their blocks.
pub fn lines_are_blocks()
    ensures { (b : Unfinished) (spot : Spot) (lines : List Placed) (last : Placed) →
        All IsOpening lines → role_of last.statement ≡ roles.Acts false → length b.opens + length lines ≤ most_blocks →
        and_read b spot (Some (record { lines = lines; last = last })) ≡ read_on b (map alone (in_blocks lines last)) }
{}

/// The tree of a module's statements is written as these.
pub fn trees_are_written()
    ensures { (placed : List Placed) → AreNested (map statement_of placed) →
        parts_written (parts_grown placed) ≡ map statement_of placed }
{}

/// Each part of a module stands where its first statement does.
pub fn parts_stand_where_they_begin()
    ensures { (placed : List Placed) → AreNested (map statement_of placed) →
        map part_spot (parts_grown placed) ≡ beginnings (Some []) placed }
{}
