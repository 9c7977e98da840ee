ghost use Rattle.std.specs.Prelude.{◌≡◌, ◌≤◌, ℕ, List};
ghost use Rattle.solid_top.specs.declared.commands.Command.{Command};
ghost use Rattle.solid_top.specs.declared.statuses.Status.{Status};
ghost use Rattle.solid_top.specs.Checks.{IsChecked};
ghost use Rattle.solid_top.specs.Commands.{Names};
ghost use Rattle.solid_top.specs.Load.{IsLoadOutput};
ghost use Rattle.solid_top.specs.Run.{IsDue};

/// A law on all bytes: a check answers them, with one status and one text.
pub fn one_check()
    ensures some { (bytes : List ℕ) → (s : Status) × (text : List ℕ) × IsChecked bytes s text }
    ensures once { (bytes : List ℕ) (s t : Status) (a b : List ℕ) →
        IsChecked bytes s a → IsChecked bytes t b → (s ≡ t) × (a ≡ b) }
{}

/// A law on all words: they are one command at most.
pub fn one_command()
    ensures { (words : List (List ℕ)) (a b : Command) → Names words a → Names words b → a ≡ b }
{}

/// A law on all words and bytes: one status and one text at most are due to them.
pub fn one_end()
    ensures { (words : List (List ℕ)) (bytes : List ℕ) (s t : Status) (a b : List ℕ) →
        IsDue words bytes s a → IsDue words bytes t b → (s ≡ t) × (a ≡ b) }
{}

/// A law on the inputs that `load` makes: where there is memory for each line, they have one text.
pub fn one_load()
    ensures some { (n : ℕ) → 1 ≤ n → n ≤ 1000 → (text : List ℕ) × IsLoadOutput n text }
    ensures once { (n : ℕ) (a b : List ℕ) → IsLoadOutput n a → IsLoadOutput n b → a ≡ b }
{}
