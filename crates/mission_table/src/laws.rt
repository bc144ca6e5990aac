// What it means that trains and missions are taken.
ghost use Rattle.std.specs.Prelude.{◌≡◌, ◌↔◌, ℕ, Bool, List, length, Ok};
ghost use Rattle.rail_model.specs.Layout.{Layout};
ghost use Rattle.rail_model.specs.Table.{Mission};
ghost use Rattle.rail_model.specs.Ways.{AreMissionsOf};
ghost use Rattle.mission_table.specs.Roster.{AreTrains, trains_from};
ghost use Rattle.mission_table.specs.Ways.{missions_from, missions_value};

/// Names are taken exactly where they are those of at most 32 trains, well formed and no two the same. What is taken are the names.
pub fn exactly_trains_are_taken()
    ensures { (names T : List (List ℕ)) → (trains_from names ≡ Ok T) ↔ ((T ≡ names) × AreTrains names) }
{}

/// Lists are taken exactly where there is one list and one exit for each train, and the missions that they describe are missions of the
/// layout: each has a point and no place above 127, its points are those of the layout, and each is linked to the next. What is taken
/// has the lists that were given.
pub fn exactly_missions_of_the_layout_are_taken()
    ensures { (L : Layout) (trains : ℕ) (lists : List (List (List ℕ))) (exits : List Bool) (M : List Mission)
        → (missions_from L trains lists exits ≡ Ok M)
        ↔ ((length lists ≡ trains) × (length exits ≡ trains) × (M ≡ missions_value L lists exits) × AreMissionsOf L M) }
{}
