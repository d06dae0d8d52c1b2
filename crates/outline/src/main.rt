// Outline: the cursor of P11, left of the screen, a window 2 that ends beyond the display, and a capture window.
#![tactic(auto)]

fn main(rt: HostRuntime) {
    shell::outline(&rt, &rt.stderr());
}
