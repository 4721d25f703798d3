// Theorems about the definitions. Each stands on a contract, so that the gate asks for its proof.
ghost use Rattle.std.specs.Prelude.{◌≡◌, true};
ghost use Rattle.std.specs.List.{list_all};
ghost use Rattle.monitor.specs.Edges.{edges};
ghost use Rattle.monitor.specs.Meanings.{BeganMeans, LatelyMeans};
ghost use Rattle.monitor.specs.Witnesses.{Witnessed};

// What each recursive word says of the history, both ways.
pub fn words_mean_what_they_say()
    ensures lately { LatelyMeans }
    ensures began { BeganMeans }
{}

// For each promise a run that meets what it supposes.
pub fn promises_are_not_empty()
    ensures { Witnessed }
{}

// The definitions give every row of the table of edges.
pub fn edges_hold()
    ensures { list_all (λ row. row) edges ≡ true }
{}
