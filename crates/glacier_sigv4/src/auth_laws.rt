// Laws of the definitions, which no code calls.
ghost use Rattle.std.specs.Prelude.{◌≡◌, ◌↔◌, ℕ, List, Some, Ok, Err};
ghost use Rattle.glacier_sigv4.specs.Authorization.{AuthorizationText, authorization_of};
ghost use Rattle.glacier_sigv4.specs.Grammar.{IsAuthorization};
ghost use Rattle.glacier_sigv4.specs.KeyFile.{lines_of, entries_of};
ghost use Rattle.glacier_sigv4.specs.GoodLines.{IsKeyFile, IsBadLine};
ghost use Rattle.glacier_sigv4.specs.declared.ring.Entry.{Entry};

/// What is read of an Authorization is what it spells, and whatever spells one is read.
pub fn authorization_is_spelled()
    ensures { (text : List ℕ) (a : AuthorizationText)
        → (authorization_of text ≡ Some a) ↔ IsAuthorization text a }
{}

/// What is read of a key file are the entries of its good lines, and all good lines are read.
pub fn key_file_is_read()
    ensures { (text : List ℕ) (entries : List Entry)
        → (entries_of text ≡ Ok entries) ↔ IsKeyFile (lines_of text) entries }
{}

/// The line that is named is the first bad one.
pub fn bad_line_is_first()
    ensures { (text : List ℕ) (number : ℕ) → entries_of text ≡ Err number
        → IsBadLine (lines_of text) number }
{}
