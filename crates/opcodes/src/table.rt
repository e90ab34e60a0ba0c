// The cycles of all 256 opcodes, packed: twelve hex digits each.
//
//     0x14_20_20_53_62_55        SHLD
//       |  |  |  |  |  |'- cycles where the condition is not met
//       |  |  |  |  |  '-- cycles where it is met
//       '--'--'--'--'----- cycles 1 to 5: what is addressed, and which byte is written; 00 is no cycle
//
// First digit of a cycle: 1 the opcode (at PC; second digit: the fetch's states), 2 an operand (at PC), 3 HL, 4 the pair,
// 5 the address read, 6 the same + 1, 7 SP, 8 SP + 1, 9 SP - 1, A SP - 2, B the port, C PC (halt acknowledge), D none.
// Second digit: 0 reads or moves nothing, 1 A, 2 H, 3 L, 4 the register, 5 the byte read, 6 that + 1, 7 that - 1,
// 8 PC high, 9 PC low, A pair high, B pair low, C L (XTHL's last cycle, with two states more).
ghost use Rattle.std.specs.Prelude.{◌≡◌};
ghost use Rattle.opcodes.specs.Entries.{entries};

static TABLE: [u64; 256] = [
    0x14_00_00_00_00_11, // 00 NOP         nothing
    0x14_20_20_00_00_33, // 01 LXI B,d16   BC <- address
    0x14_41_00_00_00_22, // 02 STAX B      (BC) <- A
    0x15_00_00_00_00_11, // 03 INX B       BC <- BC + 1; no flag
    0x15_00_00_00_00_11, // 04 INR B       B <- B + 1; all flags but CY
    0x15_00_00_00_00_11, // 05 DCR B       B <- B - 1; all flags but CY
    0x14_20_00_00_00_22, // 06 MVI B,d8    B <- byte
    0x14_00_00_00_00_11, // 07 RLC         A rotated left; CY
    0x00_00_00_00_00_00, // 08 --          undefined
    0x14_D0_D0_00_00_33, // 09 DAD B       HL <- HL + BC; CY
    0x14_40_00_00_00_22, // 0A LDAX B      A <- (BC)
    0x15_00_00_00_00_11, // 0B DCX B       BC <- BC - 1; no flag
    0x15_00_00_00_00_11, // 0C INR C       C <- C + 1; all flags but CY
    0x15_00_00_00_00_11, // 0D DCR C       C <- C - 1; all flags but CY
    0x14_20_00_00_00_22, // 0E MVI C,d8    C <- byte
    0x14_00_00_00_00_11, // 0F RRC         A rotated right; CY
    0x00_00_00_00_00_00, // 10 --          undefined
    0x14_20_20_00_00_33, // 11 LXI D,d16   DE <- address
    0x14_41_00_00_00_22, // 12 STAX D      (DE) <- A
    0x15_00_00_00_00_11, // 13 INX D       DE <- DE + 1; no flag
    0x15_00_00_00_00_11, // 14 INR D       D <- D + 1; all flags but CY
    0x15_00_00_00_00_11, // 15 DCR D       D <- D - 1; all flags but CY
    0x14_20_00_00_00_22, // 16 MVI D,d8    D <- byte
    0x14_00_00_00_00_11, // 17 RAL         A rotated left through CY
    0x00_00_00_00_00_00, // 18 --          undefined
    0x14_D0_D0_00_00_33, // 19 DAD D       HL <- HL + DE; CY
    0x14_40_00_00_00_22, // 1A LDAX D      A <- (DE)
    0x15_00_00_00_00_11, // 1B DCX D       DE <- DE - 1; no flag
    0x15_00_00_00_00_11, // 1C INR E       E <- E + 1; all flags but CY
    0x15_00_00_00_00_11, // 1D DCR E       E <- E - 1; all flags but CY
    0x14_20_00_00_00_22, // 1E MVI E,d8    E <- byte
    0x14_00_00_00_00_11, // 1F RAR         A rotated right through CY
    0x00_00_00_00_00_00, // 20 --          undefined
    0x14_20_20_00_00_33, // 21 LXI H,d16   HL <- address
    0x14_20_20_53_62_55, // 22 SHLD adr    (address) <- L, (address + 1) <- H
    0x15_00_00_00_00_11, // 23 INX H       HL <- HL + 1; no flag
    0x15_00_00_00_00_11, // 24 INR H       H <- H + 1; all flags but CY
    0x15_00_00_00_00_11, // 25 DCR H       H <- H - 1; all flags but CY
    0x14_20_00_00_00_22, // 26 MVI H,d8    H <- byte
    0x14_00_00_00_00_11, // 27 DAA         A adjusted to two decimal digits
    0x00_00_00_00_00_00, // 28 --          undefined
    0x14_D0_D0_00_00_33, // 29 DAD H       HL <- HL + HL; CY
    0x14_20_20_50_60_55, // 2A LHLD adr    L <- (address), H <- (address + 1)
    0x15_00_00_00_00_11, // 2B DCX H       HL <- HL - 1; no flag
    0x15_00_00_00_00_11, // 2C INR L       L <- L + 1; all flags but CY
    0x15_00_00_00_00_11, // 2D DCR L       L <- L - 1; all flags but CY
    0x14_20_00_00_00_22, // 2E MVI L,d8    L <- byte
    0x14_00_00_00_00_11, // 2F CMA         A <- not A; no flag
    0x00_00_00_00_00_00, // 30 --          undefined
    0x14_20_20_00_00_33, // 31 LXI SP,d16  SP <- address
    0x14_20_20_51_00_44, // 32 STA adr     (address) <- A
    0x15_00_00_00_00_11, // 33 INX SP      SP <- SP + 1; no flag
    0x14_30_36_00_00_33, // 34 INR M       (HL) <- (HL) + 1; all flags but CY
    0x14_30_37_00_00_33, // 35 DCR M       (HL) <- (HL) - 1; all flags but CY
    0x14_20_35_00_00_33, // 36 MVI M,d8    (HL) <- byte
    0x14_00_00_00_00_11, // 37 STC         CY <- 1
    0x00_00_00_00_00_00, // 38 --          undefined
    0x14_D0_D0_00_00_33, // 39 DAD SP      HL <- HL + SP; CY
    0x14_20_20_50_00_44, // 3A LDA adr     A <- (address)
    0x15_00_00_00_00_11, // 3B DCX SP      SP <- SP - 1; no flag
    0x15_00_00_00_00_11, // 3C INR A       A <- A + 1; all flags but CY
    0x15_00_00_00_00_11, // 3D DCR A       A <- A - 1; all flags but CY
    0x14_20_00_00_00_22, // 3E MVI A,d8    A <- byte
    0x14_00_00_00_00_11, // 3F CMC         CY <- not CY
    0x15_00_00_00_00_11, // 40 MOV B,B     B <- B
    0x15_00_00_00_00_11, // 41 MOV B,C     B <- C
    0x15_00_00_00_00_11, // 42 MOV B,D     B <- D
    0x15_00_00_00_00_11, // 43 MOV B,E     B <- E
    0x15_00_00_00_00_11, // 44 MOV B,H     B <- H
    0x15_00_00_00_00_11, // 45 MOV B,L     B <- L
    0x14_30_00_00_00_22, // 46 MOV B,M     B <- (HL)
    0x15_00_00_00_00_11, // 47 MOV B,A     B <- A
    0x15_00_00_00_00_11, // 48 MOV C,B     C <- B
    0x15_00_00_00_00_11, // 49 MOV C,C     C <- C
    0x15_00_00_00_00_11, // 4A MOV C,D     C <- D
    0x15_00_00_00_00_11, // 4B MOV C,E     C <- E
    0x15_00_00_00_00_11, // 4C MOV C,H     C <- H
    0x15_00_00_00_00_11, // 4D MOV C,L     C <- L
    0x14_30_00_00_00_22, // 4E MOV C,M     C <- (HL)
    0x15_00_00_00_00_11, // 4F MOV C,A     C <- A
    0x15_00_00_00_00_11, // 50 MOV D,B     D <- B
    0x15_00_00_00_00_11, // 51 MOV D,C     D <- C
    0x15_00_00_00_00_11, // 52 MOV D,D     D <- D
    0x15_00_00_00_00_11, // 53 MOV D,E     D <- E
    0x15_00_00_00_00_11, // 54 MOV D,H     D <- H
    0x15_00_00_00_00_11, // 55 MOV D,L     D <- L
    0x14_30_00_00_00_22, // 56 MOV D,M     D <- (HL)
    0x15_00_00_00_00_11, // 57 MOV D,A     D <- A
    0x15_00_00_00_00_11, // 58 MOV E,B     E <- B
    0x15_00_00_00_00_11, // 59 MOV E,C     E <- C
    0x15_00_00_00_00_11, // 5A MOV E,D     E <- D
    0x15_00_00_00_00_11, // 5B MOV E,E     E <- E
    0x15_00_00_00_00_11, // 5C MOV E,H     E <- H
    0x15_00_00_00_00_11, // 5D MOV E,L     E <- L
    0x14_30_00_00_00_22, // 5E MOV E,M     E <- (HL)
    0x15_00_00_00_00_11, // 5F MOV E,A     E <- A
    0x15_00_00_00_00_11, // 60 MOV H,B     H <- B
    0x15_00_00_00_00_11, // 61 MOV H,C     H <- C
    0x15_00_00_00_00_11, // 62 MOV H,D     H <- D
    0x15_00_00_00_00_11, // 63 MOV H,E     H <- E
    0x15_00_00_00_00_11, // 64 MOV H,H     H <- H
    0x15_00_00_00_00_11, // 65 MOV H,L     H <- L
    0x14_30_00_00_00_22, // 66 MOV H,M     H <- (HL)
    0x15_00_00_00_00_11, // 67 MOV H,A     H <- A
    0x15_00_00_00_00_11, // 68 MOV L,B     L <- B
    0x15_00_00_00_00_11, // 69 MOV L,C     L <- C
    0x15_00_00_00_00_11, // 6A MOV L,D     L <- D
    0x15_00_00_00_00_11, // 6B MOV L,E     L <- E
    0x15_00_00_00_00_11, // 6C MOV L,H     L <- H
    0x15_00_00_00_00_11, // 6D MOV L,L     L <- L
    0x14_30_00_00_00_22, // 6E MOV L,M     L <- (HL)
    0x15_00_00_00_00_11, // 6F MOV L,A     L <- A
    0x14_34_00_00_00_22, // 70 MOV M,B     (HL) <- B
    0x14_34_00_00_00_22, // 71 MOV M,C     (HL) <- C
    0x14_34_00_00_00_22, // 72 MOV M,D     (HL) <- D
    0x14_34_00_00_00_22, // 73 MOV M,E     (HL) <- E
    0x14_34_00_00_00_22, // 74 MOV M,H     (HL) <- H
    0x14_34_00_00_00_22, // 75 MOV M,L     (HL) <- L
    0x14_C0_00_00_00_22, // 76 HLT         halt
    0x14_34_00_00_00_22, // 77 MOV M,A     (HL) <- A
    0x15_00_00_00_00_11, // 78 MOV A,B     A <- B
    0x15_00_00_00_00_11, // 79 MOV A,C     A <- C
    0x15_00_00_00_00_11, // 7A MOV A,D     A <- D
    0x15_00_00_00_00_11, // 7B MOV A,E     A <- E
    0x15_00_00_00_00_11, // 7C MOV A,H     A <- H
    0x15_00_00_00_00_11, // 7D MOV A,L     A <- L
    0x14_30_00_00_00_22, // 7E MOV A,M     A <- (HL)
    0x15_00_00_00_00_11, // 7F MOV A,A     A <- A
    0x14_00_00_00_00_11, // 80 ADD B       A <- A + B
    0x14_00_00_00_00_11, // 81 ADD C       A <- A + C
    0x14_00_00_00_00_11, // 82 ADD D       A <- A + D
    0x14_00_00_00_00_11, // 83 ADD E       A <- A + E
    0x14_00_00_00_00_11, // 84 ADD H       A <- A + H
    0x14_00_00_00_00_11, // 85 ADD L       A <- A + L
    0x14_30_00_00_00_22, // 86 ADD M       A <- A + (HL)
    0x14_00_00_00_00_11, // 87 ADD A       A <- A + A
    0x14_00_00_00_00_11, // 88 ADC B       A <- A + B + CY
    0x14_00_00_00_00_11, // 89 ADC C       A <- A + C + CY
    0x14_00_00_00_00_11, // 8A ADC D       A <- A + D + CY
    0x14_00_00_00_00_11, // 8B ADC E       A <- A + E + CY
    0x14_00_00_00_00_11, // 8C ADC H       A <- A + H + CY
    0x14_00_00_00_00_11, // 8D ADC L       A <- A + L + CY
    0x14_30_00_00_00_22, // 8E ADC M       A <- A + (HL) + CY
    0x14_00_00_00_00_11, // 8F ADC A       A <- A + A + CY
    0x14_00_00_00_00_11, // 90 SUB B       A <- A - B
    0x14_00_00_00_00_11, // 91 SUB C       A <- A - C
    0x14_00_00_00_00_11, // 92 SUB D       A <- A - D
    0x14_00_00_00_00_11, // 93 SUB E       A <- A - E
    0x14_00_00_00_00_11, // 94 SUB H       A <- A - H
    0x14_00_00_00_00_11, // 95 SUB L       A <- A - L
    0x14_30_00_00_00_22, // 96 SUB M       A <- A - (HL)
    0x14_00_00_00_00_11, // 97 SUB A       A <- A - A
    0x14_00_00_00_00_11, // 98 SBB B       A <- A - B - CY
    0x14_00_00_00_00_11, // 99 SBB C       A <- A - C - CY
    0x14_00_00_00_00_11, // 9A SBB D       A <- A - D - CY
    0x14_00_00_00_00_11, // 9B SBB E       A <- A - E - CY
    0x14_00_00_00_00_11, // 9C SBB H       A <- A - H - CY
    0x14_00_00_00_00_11, // 9D SBB L       A <- A - L - CY
    0x14_30_00_00_00_22, // 9E SBB M       A <- A - (HL) - CY
    0x14_00_00_00_00_11, // 9F SBB A       A <- A - A - CY
    0x14_00_00_00_00_11, // A0 ANA B       A <- A and B
    0x14_00_00_00_00_11, // A1 ANA C       A <- A and C
    0x14_00_00_00_00_11, // A2 ANA D       A <- A and D
    0x14_00_00_00_00_11, // A3 ANA E       A <- A and E
    0x14_00_00_00_00_11, // A4 ANA H       A <- A and H
    0x14_00_00_00_00_11, // A5 ANA L       A <- A and L
    0x14_30_00_00_00_22, // A6 ANA M       A <- A and (HL)
    0x14_00_00_00_00_11, // A7 ANA A       A <- A and A
    0x14_00_00_00_00_11, // A8 XRA B       A <- A xor B
    0x14_00_00_00_00_11, // A9 XRA C       A <- A xor C
    0x14_00_00_00_00_11, // AA XRA D       A <- A xor D
    0x14_00_00_00_00_11, // AB XRA E       A <- A xor E
    0x14_00_00_00_00_11, // AC XRA H       A <- A xor H
    0x14_00_00_00_00_11, // AD XRA L       A <- A xor L
    0x14_30_00_00_00_22, // AE XRA M       A <- A xor (HL)
    0x14_00_00_00_00_11, // AF XRA A       A <- A xor A
    0x14_00_00_00_00_11, // B0 ORA B       A <- A or B
    0x14_00_00_00_00_11, // B1 ORA C       A <- A or C
    0x14_00_00_00_00_11, // B2 ORA D       A <- A or D
    0x14_00_00_00_00_11, // B3 ORA E       A <- A or E
    0x14_00_00_00_00_11, // B4 ORA H       A <- A or H
    0x14_00_00_00_00_11, // B5 ORA L       A <- A or L
    0x14_30_00_00_00_22, // B6 ORA M       A <- A or (HL)
    0x14_00_00_00_00_11, // B7 ORA A       A <- A or A
    0x14_00_00_00_00_11, // B8 CMP B       flags of A - B
    0x14_00_00_00_00_11, // B9 CMP C       flags of A - C
    0x14_00_00_00_00_11, // BA CMP D       flags of A - D
    0x14_00_00_00_00_11, // BB CMP E       flags of A - E
    0x14_00_00_00_00_11, // BC CMP H       flags of A - H
    0x14_00_00_00_00_11, // BD CMP L       flags of A - L
    0x14_30_00_00_00_22, // BE CMP M       flags of A - (HL)
    0x14_00_00_00_00_11, // BF CMP A       flags of A - A
    0x15_70_80_00_00_31, // C0 RNZ         if NZ: PC <- (SP), SP <- SP + 2
    0x14_70_80_00_00_33, // C1 POP B       BC <- (SP), SP <- SP + 2
    0x14_20_20_00_00_33, // C2 JNZ adr     if NZ: PC <- address
    0x14_20_20_00_00_33, // C3 JMP adr     PC <- address
    0x15_20_20_98_A9_53, // C4 CNZ adr     if NZ: (SP - 2) <- PC, SP <- SP - 2, PC <- address
    0x15_9A_AB_00_00_33, // C5 PUSH B      (SP - 2) <- BC, SP <- SP - 2
    0x14_20_00_00_00_22, // C6 ADI d8      A <- A + byte
    0x15_98_A9_00_00_33, // C7 RST 0       (SP - 2) <- PC, SP <- SP - 2, PC <- 0000
    0x15_70_80_00_00_31, // C8 RZ          if Z: PC <- (SP), SP <- SP + 2
    0x14_70_80_00_00_33, // C9 RET         PC <- (SP), SP <- SP + 2
    0x14_20_20_00_00_33, // CA JZ adr      if Z: PC <- address
    0x00_00_00_00_00_00, // CB --          undefined
    0x15_20_20_98_A9_53, // CC CZ adr      if Z: (SP - 2) <- PC, SP <- SP - 2, PC <- address
    0x15_20_20_98_A9_55, // CD CALL adr    (SP - 2) <- PC, SP <- SP - 2, PC <- address
    0x14_20_00_00_00_22, // CE ACI d8      A <- A + byte + CY
    0x15_98_A9_00_00_33, // CF RST 1       (SP - 2) <- PC, SP <- SP - 2, PC <- 0008
    0x15_70_80_00_00_31, // D0 RNC         if NC: PC <- (SP), SP <- SP + 2
    0x14_70_80_00_00_33, // D1 POP D       DE <- (SP), SP <- SP + 2
    0x14_20_20_00_00_33, // D2 JNC adr     if NC: PC <- address
    0x14_20_B1_00_00_33, // D3 OUT d8      output port <- A
    0x15_20_20_98_A9_53, // D4 CNC adr     if NC: (SP - 2) <- PC, SP <- SP - 2, PC <- address
    0x15_9A_AB_00_00_33, // D5 PUSH D      (SP - 2) <- DE, SP <- SP - 2
    0x14_20_00_00_00_22, // D6 SUI d8      A <- A - byte
    0x15_98_A9_00_00_33, // D7 RST 2       (SP - 2) <- PC, SP <- SP - 2, PC <- 0010
    0x15_70_80_00_00_31, // D8 RC          if C: PC <- (SP), SP <- SP + 2
    0x00_00_00_00_00_00, // D9 --          undefined
    0x14_20_20_00_00_33, // DA JC adr      if C: PC <- address
    0x14_20_B0_00_00_33, // DB IN d8       A <- input port
    0x15_20_20_98_A9_53, // DC CC adr      if C: (SP - 2) <- PC, SP <- SP - 2, PC <- address
    0x00_00_00_00_00_00, // DD --          undefined
    0x14_20_00_00_00_22, // DE SBI d8      A <- A - byte - CY
    0x15_98_A9_00_00_33, // DF RST 3       (SP - 2) <- PC, SP <- SP - 2, PC <- 0018
    0x15_70_80_00_00_31, // E0 RPO         if PO: PC <- (SP), SP <- SP + 2
    0x14_70_80_00_00_33, // E1 POP H       HL <- (SP), SP <- SP + 2
    0x14_20_20_00_00_33, // E2 JPO adr     if PO: PC <- address
    0x14_70_80_82_7C_55, // E3 XTHL        L <-> (SP), H <-> (SP + 1)
    0x15_20_20_98_A9_53, // E4 CPO adr     if PO: (SP - 2) <- PC, SP <- SP - 2, PC <- address
    0x15_9A_AB_00_00_33, // E5 PUSH H      (SP - 2) <- HL, SP <- SP - 2
    0x14_20_00_00_00_22, // E6 ANI d8      A <- A and byte
    0x15_98_A9_00_00_33, // E7 RST 4       (SP - 2) <- PC, SP <- SP - 2, PC <- 0020
    0x15_70_80_00_00_31, // E8 RPE         if PE: PC <- (SP), SP <- SP + 2
    0x15_00_00_00_00_11, // E9 PCHL        PC <- HL
    0x14_20_20_00_00_33, // EA JPE adr     if PE: PC <- address
    0x14_00_00_00_00_11, // EB XCHG        HL <-> DE
    0x15_20_20_98_A9_53, // EC CPE adr     if PE: (SP - 2) <- PC, SP <- SP - 2, PC <- address
    0x00_00_00_00_00_00, // ED --          undefined
    0x14_20_00_00_00_22, // EE XRI d8      A <- A xor byte
    0x15_98_A9_00_00_33, // EF RST 5       (SP - 2) <- PC, SP <- SP - 2, PC <- 0028
    0x15_70_80_00_00_31, // F0 RP          if P: PC <- (SP), SP <- SP + 2
    0x14_70_80_00_00_33, // F1 POP PSW     PSW <- (SP), SP <- SP + 2
    0x14_20_20_00_00_33, // F2 JP adr      if P: PC <- address
    0x14_00_00_00_00_11, // F3 DI          INTE <- 0
    0x15_20_20_98_A9_53, // F4 CP adr      if P: (SP - 2) <- PC, SP <- SP - 2, PC <- address
    0x15_9A_AB_00_00_33, // F5 PUSH PSW    (SP - 2) <- PSW, SP <- SP - 2
    0x14_20_00_00_00_22, // F6 ORI d8      A <- A or byte
    0x15_98_A9_00_00_33, // F7 RST 6       (SP - 2) <- PC, SP <- SP - 2, PC <- 0030
    0x15_70_80_00_00_31, // F8 RM          if M: PC <- (SP), SP <- SP + 2
    0x15_00_00_00_00_11, // F9 SPHL        SP <- HL
    0x14_20_20_00_00_33, // FA JM adr      if M: PC <- address
    0x14_00_00_00_00_11, // FB EI          INTE <- 1, after the next instruction
    0x15_20_20_98_A9_53, // FC CM adr      if M: (SP - 2) <- PC, SP <- SP - 2, PC <- address
    0x00_00_00_00_00_00, // FD --          undefined
    0x14_20_00_00_00_22, // FE CPI d8      flags of A - byte
    0x15_98_A9_00_00_33, // FF RST 7       (SP - 2) <- PC, SP <- SP - 2, PC <- 0038
];

// The table, where it stands: nothing is copied.
#[tactic(auto, unfolding(crate::specs::Entries::entries, crate::specs::Entries::entry_of, crate::specs::Cycles::cycling))]
pub fn table() -> &'static [u64; 256]
    ensures { result.now ≡ entries }
{
    &TABLE
}
