// What the command says about itself.
use crate::failure::Failure;
use refusal::Refusal;

const HELP: &str = "sealer makes and checks seals for documents that must hold for decades.

  sealer digest FILE ..   the digest of each file that a seal binds; - is standard input
  sealer refusals         the numbers with which calls are refused, and what they mean
  sealer demo             a tour of what there is, from beginning to end
  sealer help             this page

Examples:
  sealer digest plan.txt
  cat plan.txt | sealer digest -

It ends with status 0 when all was done, and with 1 after saying on standard error what was not.
";

pub fn print(rt: &HostRuntime) -> Result<(), Failure> {
    rt.print(HELP)?;
    Ok(())
}

// Every refusal by its number. The numbers begin at 1 and have no gap.
pub fn print_refusals(rt: &HostRuntime) -> Result<(), Failure> {
    for refusal in (1..=u8::MAX).map_while(|n| Refusal::try_from(n).ok()) {
        let number = refusal.number();
        println!(rt; "{number:>2}  {refusal}")?;
    }
    Ok(())
}
