// What it means that lists are taken.
ghost use Rattle.std.specs.Prelude.{◌≡◌, ◌↔◌, ℕ, List, Ok};
ghost use Rattle.rail_model.specs.Layout.{Layout, IsLayout};
ghost use Rattle.track_layout.specs.Making.{layout_from, layout_value};

/// Lists are taken exactly where the layout that they describe is one: where no limit is passed, the names are well formed and no two
/// the same, each point has a zone and each zone a point, and each link joins two different points. What is taken has the lists that
/// were given.
pub fn exactly_layouts_are_taken()
    ensures { (points : List (List ℕ × ℕ)) (links : List (List ℕ × List ℕ)) (zones : ℕ) (L : Layout)
        → (layout_from points links zones ≡ Ok L) ↔ ((L ≡ layout_value points links zones) × IsLayout L) }
{}
