// The words of the command line.
ghost use Rattle.std.specs.Prelude.{◌≡◌};
ghost use Rattle.mg_migrate_session.specs.Commands.{is_migrate, migrate_words};
ghost use Rattle.mg_io.specs.Arguments.{arguments};

/// Whether the words, which are those after the program's name, are `VOLUME migrate OLD`, and VOLUME and OLD differ.
pub fn is_migrate(words: &[String]) -> bool
    ensures { result ≡ is_migrate (arguments words.now) }
{
    match words {
        [new, word, old] => migrates(new.as_bytes(), word.as_bytes(), old.as_bytes()),
        _ => false,
    }
}

fn migrates(new: &[u8], word: &[u8], old: &[u8]) -> bool
    ensures { result ≡ migrate_words new.now word.now old.now }
{
    word == b"migrate".as_slice() && new != old
}
