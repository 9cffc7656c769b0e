ghost use Rattle.std.specs.Prelude.{◌≡◌, ◌∷◌, [], codes};
ghost use Rattle.json_forms.specs.Objects.{Number, Text, Fixed, object_text};

/// The texts of some objects, by computation from the definitions alone.
pub fn worked_texts()
    ensures object { object_text ((codes "at", Number 7) ∷ (codes "mode", Fixed (codes "on")) ∷ (codes "place", Text (codes "0/1")) ∷ [])
        ≡ codes "{\"at\":7,\"mode\":\"on\",\"place\":\"0/1\"}" }
    ensures no_members { object_text [] ≡ codes "{}" }
{}
