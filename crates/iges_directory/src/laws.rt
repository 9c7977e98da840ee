ghost use Rattle.std.specs.Prelude.{◌≡◌, ◌⊎◌, ◌≤◌, ◌<◌, ◌+◌, ◌*◌, ◌^◌, ℕ, List, [], ◌∷◌, ◌↔◌, Ok};
ghost use Rattle.std.specs.Prelude.{Err, length};
ghost use Rattle.std.specs.List.{AllByRecursion};
ghost use Rattle.solid_base.specs.Texts.{IsOneLine};
ghost use Rattle.solid_base.specs.declared.entities.Token.TheVariants as Token;
ghost use Rattle.iges_fields.specs.Delimiters.{AreDelimiters};
ghost use Rattle.iges_fields.specs.Layout.{AreSpelt, AreOneLine, laid};
ghost use Rattle.iges_directory.specs.declared.globals.GlobalText.{GlobalText};
ghost use Rattle.iges_directory.specs.Global.{IsGlobal, IsFirstFault};
ghost use Rattle.iges_directory.specs.declared.directory_faults.DirFault.{DirFault};
ghost use Rattle.iges_directory.specs.declared.pairs.Pair.{Pair};
ghost use Rattle.iges_directory.specs.DirectoryFaults.{IsOfText};
ghost use Rattle.iges_directory.specs.Kept.{AreColumns, IsKept};
ghost use Rattle.iges_directory.specs.Pairs.{IsDirectory};
ghost use Rattle.iges_directory.specs.DirectoryReading.{directory_in};
ghost use Rattle.iges_directory.specs.FirstFaults.{IsDirectoryFault};

/// A law on all texts: each is a global section, or has a first faulty parameter, and never both. A
/// global section has one reading, and the first faulty parameter one index.
pub fn one_global_section()
    ensures once { (text : List ℕ) (a b : GlobalText) → IsGlobal text a → IsGlobal text b → a ≡ b }
    ensures first { (text : List ℕ) (m n : ℕ) → IsFirstFault m text → IsFirstFault n text → m ≡ n }
    ensures apart { (text : List ℕ) (global : GlobalText) (n : ℕ) → IsGlobal text global →
        IsFirstFault n text → ⊥ }
    ensures one_of_both { (text : List ℕ) →
        ((global : GlobalText) × IsGlobal text global) ⊎ ((n : ℕ) × IsFirstFault n text) }
{}

/// A law on all lines: they are a directory or have a first fault, and never both. A directory has
/// one list of entries, and other lines one first fault, which isn't out of memory.
pub fn one_directory()
    ensures once { (params : ℕ) (lines : List (List ℕ)) (a b : List Pair) →
        IsDirectory params lines a → IsDirectory params lines b → a ≡ b }
    ensures first { (params : ℕ) (lines : List (List ℕ)) (f g : DirFault) →
        IsDirectoryFault params lines f → IsDirectoryFault params lines g → f ≡ g }
    ensures of_text { (params : ℕ) (lines : List (List ℕ)) (fault : DirFault) →
        IsDirectoryFault params lines fault → IsOfText fault }
    ensures apart { (params : ℕ) (lines : List (List ℕ)) (pairs : List Pair) (fault : DirFault) →
        IsDirectory params lines pairs → IsDirectoryFault params lines fault → ⊥ }
    ensures one_of_both { (params : ℕ) (lines : List (List ℕ)) →
        ((pairs : List Pair) × IsDirectory params lines pairs) ⊎
        ((fault : DirFault) × IsDirectoryFault params lines fault) }
{}

/// A law on all lines: reading them in the order of checks gives the entries exactly where they are
/// a directory with these, and a fault exactly where it is their first.
pub fn read_in_order()
    ensures entries { (params : ℕ) (lines : List (List ℕ)) (pairs : List Pair) →
        IsDirectory params lines pairs ↔ (directory_in params lines ≡ Ok pairs) }
    ensures fault { (params : ℕ) (lines : List (List ℕ)) (fault : DirFault) →
        IsDirectoryFault params lines fault ↔ (directory_in params lines ≡ Err fault) }
{}

/// A law on all global sections: their delimiters are lawful and differ, and their parameters are
/// spelt as read, on one line where the text is. Written in lines of 72 columns, with the two
/// delimiters as texts of one byte in front, they take at most twice the bytes of the text and 16
/// more.
pub fn kept_parameters()
    ensures delimiters { (text : List ℕ) (global : GlobalText) → IsGlobal text global →
        AreDelimiters global.comma global.semi }
    ensures spelt { (text : List ℕ) (global : GlobalText) → IsGlobal text global →
        AreSpelt global.tokens }
    ensures in_line { (text : List ℕ) (global : GlobalText) → IsGlobal text global →
        IsOneLine text →
        AreOneLine global.tokens }
    ensures room { (text : List ℕ) (global : GlobalText) → IsGlobal text global →
        length text < 2 ^ 64 →
        length (laid 72 global.comma global.semi 0
        (Token.Text (global.comma ∷ []) ∷ Token.Text (global.semi ∷ []) ∷ global.tokens))
        ≤ 2 * (length text + 8) }
{}

/// A law on all directories with lines of 80 columns and no line feed in them: an entry has 96
/// bytes of attributes with no line feed, a type and a form up to 99,999 and a matrix up to
/// 9,999,999; one of type 0 is the null entry, which has the attributes of an entity that sets
/// none.
pub fn kept_entries()
    ensures { (params : ℕ) (lines : List (List ℕ)) (pairs : List Pair) →
        IsDirectory params lines pairs →
        AreColumns lines → AllByRecursion IsKept pairs }
{}
