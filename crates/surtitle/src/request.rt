// What the words of the command line ask for.
ghost use Rattle.std.specs.Prelude.{◌≡◌, map, string_bytes};
ghost use Rattle.surtitle.specs.Requests.{asked, asked_of, check_of, evening_of, play_of};

#[derive(Clone, Copy)]
pub enum Request<'a> {
    Answer,
    // a book, and a script over it
    Check(&'a str, Option<&'a str>),
    // a book, a script over it, and the devices of a rig
    Play(&'a str, &'a str, &'a [String]),
    // the show that the program has with it
    Evening,
}

// None where the program knows no such request; the first word is the program's own name.
pub fn request_of(args: &[String]) -> Option<Request<'_>>
    ensures { asked result ≡ asked_of (map string_bytes args.now) }
{
    match args {
        [] | [_] => Some(Request::Answer),
        [_, word, rest @ ..] => match word.as_str() {
            "check" => check_of(rest),
            "play" => play_of(rest),
            "evening" => evening_of(rest),
            _ => None,
        },
    }
}

fn check_of(words: &[String]) -> Option<Request<'_>>
    ensures { asked result ≡ check_of (map string_bytes words.now) }
{
    match words {
        [book] => Some(Request::Check(book, None)),
        [book, script] => Some(Request::Check(book, Some(script))),
        _ => None,
    }
}

fn play_of(words: &[String]) -> Option<Request<'_>>
    ensures { asked result ≡ play_of (map string_bytes words.now) }
{
    match words {
        [_, _] => None,
        [book, script, devices @ ..] => Some(Request::Play(book, script, devices)),
        _ => None,
    }
}

fn evening_of(words: &[String]) -> Option<Request<'_>>
    ensures { asked result ≡ evening_of (map string_bytes words.now) }
{
    match words {
        [] => Some(Request::Evening),
        _ => None,
    }
}
