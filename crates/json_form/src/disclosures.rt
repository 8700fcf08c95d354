// The disclosures of a token, one after another, wherever they stand.
ghost use Rattle.std.specs.Prelude.{◌≡◌, ◌^◌, ◌<◌, length};
ghost use Rattle.std.specs.Iterator.{YieldsFirstBy, item_count};
ghost use Rattle.json_form.specs.Source.{rest_of};

use compact_form::Pieces;
use sd_outside::TextList;
use std::marker::Model;

// The texts of a list that are still to come.
#[derive(Debug, Drop)]
struct Rest<'a> {
    texts: &'a TextList,
    // the number of those that came
    at: usize,
}

// Where the disclosures stand.
#[derive(Debug, Drop)]
enum Stand<'a> {
    // in a compact text
    Text(Pieces<'a>),
    // in a list
    List(Rest<'a>),
}

/// The disclosures of a token that are still to come. Contracts see the list of them.
#[derive(Debug, Drop)]
pub struct Disclosures<'a> {
    stand: Stand<'a>,
}

impl<'a> Model for Disclosures<'a> {
    ghost use Rattle.std.specs.Prelude.{List, ℕ};

    ghost Value = { List (List ℕ) };

    ghost use Rattle.json_form.specs.Source.{to_come};

    ghost view = { λ d. to_come d.stand };
}

impl<'a> Disclosures<'a> {
    // Those of a compact text.
    pub(crate) fn in_text(pieces: Pieces<'a>) -> Disclosures<'a>
        ensures { result ≡ pieces.entry }
    {
        Disclosures {
            stand: Stand::Text(pieces),
        }
    }

    // Those of a list.
    pub(crate) fn in_list(texts: &'a TextList) -> Disclosures<'a>
        ensures value { result ≡ texts.now }
        ensures countable { length result < 2 ^ 64 }
    {
        // the number that is read here bounds the list
        let _count = texts.len();
        Disclosures {
            stand: Stand::List(Rest { texts, at: 0 }),
        }
    }
}

fn next_text<'a>(rest: &mut Rest<'a>) -> Option<&'a str>
    ensures { YieldsFirstBy (λ text. text.now) (λ rest. rest_of rest) rest.old result rest.new }
{
    if rest.at >= rest.texts.len() {
        return None;
    }
    let text = rest.texts.at(rest.at).unwrap();
    rest.at += 1;
    Some(text.as_str())
}

impl<'a> Iterator for Disclosures<'a> {
    type Item = &'a str;

    ghost next_gives = { YieldsFirstBy (λ text. text.now) (λ rest. rest) };

    ghost remaining = { item_count (λ rest. rest) };

    fn next(&mut self) -> Option<&'a str> {
        match &mut self.stand {
            Stand::Text(pieces) => pieces.next(),
            Stand::List(rest) => next_text(rest),
        }
    }
}
