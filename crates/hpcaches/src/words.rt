//! The words of a call.

use hp_caches::Plan;

/// What is asked: a plan, and whether the journal is written.
#[derive(Clone, Copy, Debug)]
pub(crate) struct Asked {
    pub(crate) plan: Plan,
    pub(crate) writes_journal: bool,
}

/// What the words `WORKERS ITEMS ROUNDS [--journal]` ask for; none of others.
pub(crate) fn asked_by(words: &[String]) -> Option<Asked> {
    let writes_journal = match words.get(3) {
        None => false,
        Some(word) => {
            if word.as_str() != "--journal" || words.len() != 4 {
                return None;
            }
            true
        }
    };
    let plan = Plan::new(
        number(words.get(0)?)?,
        number(words.get(1)?)?,
        number(words.get(2)?)?,
    );
    match plan {
        Ok(plan) => Some(Asked {
            plan,
            writes_journal,
        }),
        Err(_) => None,
    }
}

/// The number that a word is.
fn number(word: &String) -> Option<u32> {
    match word.as_str().parse::<u32>() {
        Ok(number) => Some(number),
        Err(_) => None,
    }
}
