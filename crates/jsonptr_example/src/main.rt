//! A program over `jsonptr` that reads, replaces and adds values of a JSON document, and prints an
//! error.
#![tactic(auto)]

use jsonptr::Pointer;
use serde_json::Value;

fn main(rt: HostRuntime) -> anyhow::Result<()> {
    let alloc = rt.alloc();
    let mut config = Value::from_str(alloc, r#"{"window":{"width":800}}"#)?;
    let width = Pointer::parse("/window/width")?;
    println!(rt; "{}", width.resolve(alloc, &config)?)?;
    let old = width.assign(alloc, &mut config, Value::from(1024))?;
    let recent = Pointer::parse("/recent/-/width")?;
    recent.assign(alloc, &mut config, old.unwrap_or(Value::Null))?;
    println!(rt; "{config}")?;
    if let Err(error) = Pointer::parse("/recent/0/height")?.resolve(alloc, &config) {
        println!(rt; "{error}")?;
    }
    Ok(())
}
