use k8s_meta::duration::read_duration;
use k8s_meta::ports::read_port_set;
use k8s_meta::quantity::read_quantity_text;
use mesh_base::copied::Copied;
use row_file::TrialFault;
use std::alloc::Global;

/// The nanoseconds of a duration.
pub fn duration(alloc: Global, text: &str) -> Result<String, TrialFault> {
    match read_duration(text.as_bytes()) {
        Some(nanos) => Ok(format!(in alloc; "{nanos}")?),
        None => Ok(String::from_str(alloc, "none")?),
    }
}

/// The thousandths of a quantity.
pub fn quantity(alloc: Global, text: &str) -> Result<String, TrialFault> {
    match read_quantity_text(text.as_bytes()) {
        Some(thousandths) => Ok(format!(in alloc; "{thousandths}")?),
        None => Ok(String::from_str(alloc, "none")?),
    }
}

/// Writes the ranges of the set in the first line, and whether it holds the port of each other.
pub fn ports(alloc: Global, input: &str, out: &mut String) -> Result<(), TrialFault> {
    let (set, ports) = input.split_once('\n').unwrap_or((input, ""));
    let set = read_port_set(alloc, set.as_bytes())?;
    if set.copy(alloc)? != set {
        return Err(TrialFault::new("the copy is another"));
    }
    let ranges = set.ranges.as_slice();
    write!(out, "{ranges:?}\n")?;
    for port in ports.lines() {
        out.push_str(if set.holds(port.parse::<u16>()?) {
            "yes\n"
        } else {
            "no\n"
        })?;
    }
    Ok(())
}
