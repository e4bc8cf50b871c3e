use label_select::selector::{SelOp, SelRule, Selector};
use mesh_base::copied::Copied;
use mesh_base::labels::Labels;
use mesh_base::list::List;
use mesh_base::text::Text;
use row_file::TrialFault;
use std::alloc::Global;

fn labels(alloc: Global, words: &str) -> Result<Labels, TrialFault> {
    let mut labels = Labels::new(alloc);
    for word in words.split(' ') {
        if !word.is_empty() {
            let Some((key, value)) = word.split_once('=') else {
                return Err(TrialFault::new("a label has no value"));
            };
            labels.put(Text::from_str(alloc, key)?, Text::from_str(alloc, value)?)?;
        }
    }
    Ok(labels)
}

fn op(word: &str) -> Result<SelOp, TrialFault> {
    match word {
        "in" => Ok(SelOp::OneOf),
        "notin" => Ok(SelOp::NoneOf),
        "exists" => Ok(SelOp::Present),
        "lacks" => Ok(SelOp::Lacking),
        _ => Err(TrialFault::new("a rule has no such operator")),
    }
}

fn texts(alloc: Global, words: &str) -> Result<List<Text>, TrialFault> {
    let mut texts = List::new(alloc);
    for word in words.split(',') {
        if !word.is_empty() {
            texts.add(Text::from_str(alloc, word)?)?;
        }
    }
    Ok(texts)
}

fn rule(alloc: Global, word: &str) -> Result<SelRule, TrialFault> {
    let Some((key, rest)) = word.split_once(':') else {
        return Err(TrialFault::new("a rule has no operator"));
    };
    let Some((word, values)) = rest.split_once(':') else {
        return Err(TrialFault::new("a rule has no values"));
    };
    Ok(SelRule {
        key: Text::from_str(alloc, key)?,
        op: op(word)?,
        values: texts(alloc, values)?,
    })
}

fn rules(alloc: Global, words: &str) -> Result<List<SelRule>, TrialFault> {
    let mut rules = List::new(alloc);
    for word in words.split(' ') {
        if !word.is_empty() {
            rules.add(rule(alloc, word)?)?;
        }
    }
    Ok(rules)
}

/// Whether the labels that there are match a selector, which is the labels that it asks for and its
/// rules.
pub fn selector(alloc: Global, line: &str) -> Result<String, TrialFault> {
    let (exact, rest) = line.split_once(" | ").unwrap_or((line, ""));
    let Some((asked, there)) = rest.split_once(" | ") else {
        return Err(TrialFault::new("a line has no labels"));
    };
    let selector = Selector {
        exact: labels(alloc, exact)?,
        rules: rules(alloc, asked)?,
    };
    let matches = selector.copy(alloc)?.matches(&labels(alloc, there)?);
    Ok(String::from_str(alloc, if matches { "yes" } else { "no" })?)
}
