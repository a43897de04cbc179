ghost use Rattle.std.specs.Prelude.{◌≡◌, ◌≤◌, ◌∷◌, [], ℕ, List, None, Ok, Some, codes};
ghost use Rattle.st_messages.specs.declared.event.Event.{Event};
ghost use Rattle.st_schedule.specs.declared.reader.Line.{Line};
ghost use Rattle.st_schedule.specs.declared.reader.Progress.{Progress};
ghost use Rattle.st_schedule.specs.Parser.{line_event};
ghost use Rattle.st_schedule_words.specs.Words.{line_of};
ghost use Rattle.st_schedule.specs.Grammar.{Spells, words};
ghost use Rattle.st_schedule.specs.Reader.{IsReadAs, IsReadWhereSpelled, SpellsLine, HasNodes, read_line};

/// Words that spell an event are read as this event.
pub fn what_spells_an_event_is_read_so()
    ensures { (form nodes : ℕ) (ws : List (List ℕ)) (e : Event) → Spells form nodes ws e → line_event form nodes ws ≡ Ok (Some e) }
{}

/// Words that spell an event spell no other.
pub fn words_spell_one_event()
    ensures { (form nodes : ℕ) (ws : List (List ℕ)) (e f : Event) → Spells form nodes ws e → Spells form nodes ws f → e ≡ f }
{}

/// Words that are read as an event spell this event, and words that are read as the end are the one
/// word `end`.
pub fn what_is_read_is_spelled_so()
    ensures event { (form nodes : ℕ) (ws : List (List ℕ)) (e : Event) → 1 ≤ nodes → line_event form nodes ws ≡ Ok (Some e) → Spells form nodes ws e }
    ensures end { (form nodes : ℕ) (ws : List (List ℕ)) → line_event form nodes ws ≡ Ok None → ws ≡ codes "end" ∷ [] }
{}

/// The printed line of an event is read as this event.
pub fn printed_lines_are_read_back()
    ensures { (e : Event) → IsReadAs (line_of (words e)) e }
{}

/// In each place, a line is read as what it spells there, and as nothing else.
pub fn lines_are_read_as_they_are_spelled()
    ensures spelled { (p : Progress) (line : List ℕ) (said : Line × Progress) → HasNodes p → read_line p line ≡ Ok said → SpellsLine p line said.0 }
    ensures read { (p : Progress) (line : List ℕ) (said : Line) → IsReadWhereSpelled p line said }
{}
