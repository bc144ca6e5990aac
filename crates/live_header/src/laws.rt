// What holds of every header: laws of the definitions, with no code.
ghost use Rattle.std.specs.Prelude.{◌≡◌, ◌≢◌, ◌++◌, ◌∷◌, [], ℕ, List, All, codes, false, true};
ghost use Rattle.std.specs.Str.{bytes_eq};
ghost use Rattle.live_header.specs.Naming.{is_live};
ghost use Rattle.live_header.specs.Scan.{after_bytes, newline, started, text_of};
ghost use Rattle.live_header.specs.declared.scanning.Stage.TheVariants.{Live};

/// The lines of a document, the line `journal`, the lines of a journal and a line that begins the session are read as
/// those parts, and what follows is left.
pub fn headers_are_read()
    ensures { (document journal : List (List ℕ)) (live rest : List ℕ)
        → All (All (λ byte. byte ≢ newline)) document → All (λ line. bytes_eq line (codes "journal") ≡ false) document
        → All (All (λ byte. byte ≢ newline)) journal → All (λ line. is_live line ≡ false) journal
        → All (λ byte. byte ≢ newline) live → is_live live ≡ true
        → after_bytes (started [])
        (text_of document ++ codes "journal\n" ++ text_of journal ++ (live ++ (newline ∷ [])) ++ rest)
        ≡ record { stage = Live; document = text_of document; journal = text_of journal; live = live; line = rest } }
{}
