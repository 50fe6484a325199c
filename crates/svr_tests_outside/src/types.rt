use std::alloc::Global;
use std::collections::BTreeMap;
use std::test::Fail;
use svr_edge::{Items, Memory, Text};

/// Texts, and how many bytes they have.
const TEXTS: &[(&str, usize)] = &[("", 0), ("a", 1), ("zebra", 5), ("é", 2), ("日本", 6)];

/// Whether a text keeps its bytes, in each of the three ways to make it.
fn keeps_bytes(alloc: Global, words: &str, len: usize) -> Result<bool, Memory> {
    let text = Text::new(alloc, words)?;
    let copy = text.copy(alloc)?;
    let owned = Text::from_string(String::from_str(alloc, words)?);
    let is_same = text == copy && copy == owned;
    Ok(is_same && owned.as_str() == words && text.len() == len)
}

fn texts_keep_their_bytes(alloc: Global) -> Result<bool, Memory> {
    for (words, len) in TEXTS {
        if !keeps_bytes(alloc, words, *len)? {
            return Ok(false);
        }
    }
    Ok(true)
}

/// Words in the order of their bytes, each with the place where it stands last.
const ORDERED: &[(&str, usize)] = &[("", 4), ("B", 5), ("a", 6), ("ab", 1), ("z", 0), ("é", 2)];

/// Whether texts are keys in the order of their bytes.
fn texts_are_ordered(alloc: Global) -> Result<bool, Memory> {
    let mut places = BTreeMap::new(alloc);
    for (place, word) in ["z", "ab", "é", "a", "", "B", "a"].iter().enumerate() {
        places.insert(Text::new(alloc, word)?, place)?;
    }
    for ((text, place), (word, wanted)) in places.iter().zip(ORDERED.iter()) {
        if text.as_str() != *word || place != wanted {
            return Ok(false);
        }
    }
    Ok(places.len() == ORDERED.len() && places.get(&Text::new(alloc, "ab")?).is_some())
}

/// Whether a list gives back what it was made of.
fn lists_keep_their_items(alloc: Global) -> Result<bool, Memory> {
    let items = Items::from_vec([3u64, 1, 2].to_vec(alloc)?);
    let is_same = items.len() == 3 && items.as_slice() == [3, 1, 2].as_slice();
    let none: Items<Text> = Items::from_vec(Vec::new(alloc));
    let is_none = none.len() == 0 && none.into_vec().is_empty();
    Ok(is_same && is_none && items.into_vec().as_slice() == [3, 1, 2].as_slice())
}

#[test]
fn texts_and_lists_keep_what_they_hold(rt: HostRuntime) -> Result<(), Fail> {
    let texts = texts_keep_their_bytes(rt.alloc())?;
    let order = texts_are_ordered(rt.alloc())?;
    let lists = lists_keep_their_items(rt.alloc())?;
    assert!(rt; texts && order && lists, "{texts} {order} {lists}");
    Ok(())
}
